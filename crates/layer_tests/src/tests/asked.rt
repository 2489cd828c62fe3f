//! What a script of `threads` asks for.
use super::same;
use script_text::read_script;
use std::test::Fail;
use threads_script::Asked;
use tl_messages::ABeat;

/// What a script asks for: two clients' beats, the words of three memory threads, and two addresses.
const ASKS: &str =
    "config 2 4 16 2 16 12 hh\nregion 0 4 10 gpah\na 1 4 0 3 1 8 ff 0 0\nword 7 2\nword 5\na 0 5 0 3 0 8 ff 0 0\na 1 4 0 2 1 8 f 0 0\nword 9 2\nmem 10008\nmem 0\n";

/// The size of a beat that a client's script has at a place; none where it has none.
fn size_at(scripts: &[Vec<ABeat>], client: usize, place: usize) -> Option<u8> {
    Some(scripts.get(client)?.get(place)?.size)
}

#[test]
fn what_a_script_asks_for(rt: HostRuntime) -> Result<(), Fail> {
    let alloc = rt.alloc();
    let mut output = Vec::new(alloc);
    let nothing = Asked::new(alloc)?;
    let asked = read_script(nothing, alloc, &mut ASKS.as_bytes(), &mut output).expect(
        &rt,
        "its lines have no fault",
    );
    same(&rt, "output", output.len(), 0);
    let clients = asked.setup().map(|setup| setup.config.clients);
    same(&rt, "clients", clients, Some(2));
    let scripts = asked.scripts(2);
    same(&rt, "scripts", scripts.len(), 2);
    for (client, place, size) in [
        (0, 0, Some(3)),
        (0, 1, None),
        (1, 0, Some(3)),
        (1, 1, Some(2)),
        (1, 2, None),
    ] {
        let found = size_at(scripts, client, place);
        same(&rt, ("client and beat", client, place), found, size);
    }
    let words = asked.words();
    same(&rt, "lists of words", words.len(), 3);
    for (place, wanted) in [(0, [5].as_slice()), (1, &[]), (2, &[7, 9])] {
        let found = words.get(place).map(|list| list.as_slice());
        same(&rt, ("list", place), found, Some(wanted));
    }
    let addresses = asked.addresses();
    same(&rt, "addresses", addresses, [0x10008, 0].as_slice());
    Ok(())
}
