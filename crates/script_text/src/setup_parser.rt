//! The set-up lines of a script.
ghost use Rattle.std.specs.Prelude.{◌≡◌, ◌==◌, ◌||◌, ◌∷◌, [], not, false};
ghost use Rattle.std.specs.List.{list_all};
ghost use Rattle.line_text.specs.Fields.{Reads, address_field, byte_field, first_wrong, read_as, short_field, unless_wrong};
ghost use Rattle.score_setup.specs.ScoreSetups.{limits_of};
ghost use Rattle.script_text.specs.Forms.{levels_field, permissions_field, count_field, kind_field, range_count_field, told_as};
ghost use Rattle.script_text.specs.SetupLines.{config_line, region_line, page_line, bad_line, bus_fields, bus_in, kind_in, level_at, region_fields, region_in, levels_in, permissions_in};
ghost use Rattle.line_text.specs.Words.{word_at, dec_at, hex_at};

use burst_plan::Region;
use config::Config;
use line_text::Words;
use score_setup::ScoreConfig;
use subordinate::PageKind;
use tl_checker::Level;

/// What a set-up line adds that isn't `config`.
#[derive(Clone, Copy, Debug, PartialEq, Eq)]
pub enum SetupLine {
    /// A region.
    Region(Region),
    /// Pages that follow each other: the first, how many, and what they are.
    Pages(u32, u8, PageKind),
    /// A bad word, by its address.
    BadWord(u32),
}

fn level_at(letters: &[u8], place: usize) -> Level
    ensures { result ≡ level_at letters.now place }
{
    match letters.get(place) {
        Some(b'h') => Level::Uh,
        _ => Level::Ul,
    }
}

fn are_levels(letters: &[u8]) -> bool
    ensures { result ≡ list_all (λ letter. letter == 108 || letter == 104) letters.now }
{
    letters
        .iter()
        .all(|letter| *letter == b'l' || *letter == b'h')
}

/// A letter for each client: `l` for TL-UL, `h` for TL-UH.
fn levels(words: &Words<'_>, clients: u8) -> Result<[Level; 8], u32>
    ensures { Reads (levels_field clients (word_at words.now 8)) (levels_in (word_at words.now 8)) 8 result }
{
    let letters = words.at(8);
    if letters.is_empty() || letters.len() > 8 || letters.len() != usize::from(clients) {
        return Err(8);
    }
    if !are_levels(letters) {
        return Err(8);
    }
    Ok([
        level_at(letters, 0),
        level_at(letters, 1),
        level_at(letters, 2),
        level_at(letters, 3),
        level_at(letters, 4),
        level_at(letters, 5),
        level_at(letters, 6),
        level_at(letters, 7),
    ])
}

/// The bytes of the bus, where there is a ninth word; 8 where there is none.
fn bus_bytes(words: &Words<'_>) -> Result<u8, u32>
    ensures { result ≡ unless_wrong (bus_in words.now) (first_wrong (bus_fields words.now) words.now 9) }
{
    if words.end(8).is_ok() {
        return Ok(8);
    }
    let bytes = words.byte(9)?;
    words.end(9)?;
    Ok(bytes)
}

/// `config CLIENTS QUOTA IDS DEPTH MAXLEN MAXSIZE LEVELS`, and the bytes of the bus where they aren't 8.
pub(crate) fn config_line(words: &Words<'_>) -> Result<Config, u32>
    ensures { result ≡ config_line byte_field words.now }
{
    let clients = words.byte(2)?;
    let quota = words.byte(3)?;
    let ids = words.byte(4)?;
    let depth = words.byte(5)?;
    let max_len = words.short(6)?;
    let max_size = words.byte(7)?;
    let levels = levels(words, clients)?;
    let axi_bytes = bus_bytes(words)?;
    Ok(Config {
        clients,
        quota,
        ids,
        depth,
        max_len,
        max_size,
        levels,
        axi_bytes,
    })
}

/// The same of a bridge that is only observed, which may have more IDs and a larger depth.
pub(crate) fn score_config_line(words: &Words<'_>) -> Result<ScoreConfig, u32>
    ensures { told_as limits_of result ≡ config_line short_field words.now }
{
    let clients = words.byte(2)?;
    let quota = words.byte(3)?;
    let ids = words.short(4)?;
    let depth = words.short(5)?;
    let max_len = words.short(6)?;
    let max_size = words.byte(7)?;
    let levels = levels(words, clients)?;
    let axi_bytes = bus_bytes(words)?;
    Ok(ScoreConfig {
        clients,
        quota,
        ids,
        depth,
        max_len,
        max_size,
        levels,
        axi_bytes,
    })
}

fn permissions(words: &Words<'_>) -> Result<[bool; 4], u32>
    ensures { Reads (permissions_field (word_at words.now 5)) (permissions_in (word_at words.now 5)) 5 result }
{
    let [get, put, atomic, hint] = words.at(5) else {
        return Err(5);
    };
    Ok([
        permission(*get, b'g')?,
        permission(*put, b'p')?,
        permission(*atomic, b'a')?,
        permission(*hint, b'h')?,
    ])
}

fn permission(letter: u8, name: u8) -> Result<bool, u32>
    requires { (name == 45) ≡ false }
    ensures { Reads (letter == name || letter == 45) (not (letter == 45)) 5 result }
{
    if letter == name {
        return Ok(true);
    }
    if letter == b'-' {
        return Ok(false);
    }
    Err(5)
}

/// `region TLPAGE PAGES AXIPAGE PERMS`.
pub(crate) fn region(words: &Words<'_>) -> Result<Region, u32>
    ensures { result ≡ read_as region_fields words.now (region_in words.now) }
{
    let tl_page = words.address(2)?;
    let pages = words.long(3)?;
    let axi_page = words.address(4)?;
    let [get, put, atomic, hint] = permissions(words)?;
    words.end(5)?;
    Ok(Region {
        tl_page,
        pages,
        axi_page,
        get,
        put,
        atomic,
        hint,
    })
}

/// The same as a line of a set-up.
pub(crate) fn region_line(words: &Words<'_>) -> Result<SetupLine, u32>
    ensures { result ≡ region_line words.now }
{
    Ok(SetupLine::Region(region(words)?))
}

/// How many pages a `page` line has: 1 to 64.
pub(crate) fn page_count(words: &Words<'_>) -> Result<u8, u32>
    ensures { Reads (count_field (word_at words.now 3)) (dec_at words.now 3) 3 result }
{
    match words.dec(3, 64)? {
        0 => Err(3),
        count => Ok(count as u8),
    }
}

/// How many pages a `page` line of a bridge that is only observed has: 1 to 1,048,576.
pub(crate) fn range_count(words: &Words<'_>) -> Result<u32, u32>
    ensures { Reads (range_count_field (word_at words.now 3)) (dec_at words.now 3) 3 result }
{
    match words.dec(3, 1_048_576)? {
        0 => Err(3),
        count => Ok(count as u32),
    }
}

/// What the pages of a `page` line are.
pub(crate) fn page_kind(words: &Words<'_>) -> Result<PageKind, u32>
    ensures { Reads (kind_field (word_at words.now 4)) (kind_in (word_at words.now 4)) 4 result }
{
    match words.at(4) {
        b"good" => Ok(PageKind::Good),
        b"slverr" => Ok(PageKind::SlaveError),
        _ => Err(4),
    }
}

/// `page AXIPAGE COUNT KIND`.
pub(crate) fn page_line(words: &Words<'_>) -> Result<SetupLine, u32>
    ensures { result ≡ page_line words.now }
{
    let first = words.address(2)?;
    let count = page_count(words)?;
    let kind = page_kind(words)?;
    words.end(4)?;
    Ok(SetupLine::Pages(first, count, kind))
}

/// `bad ADDRESS`.
pub(crate) fn bad_word(words: &Words<'_>) -> Result<u32, u32>
    ensures { result ≡ read_as (address_field ∷ []) words.now (hex_at words.now 2) }
{
    let address = words.address(2)?;
    words.end(2)?;
    Ok(address)
}

/// The same as a line of a set-up.
pub(crate) fn bad_line(words: &Words<'_>) -> Result<SetupLine, u32>
    ensures { result ≡ bad_line words.now }
{
    Ok(SetupLine::BadWord(bad_word(words)?))
}
