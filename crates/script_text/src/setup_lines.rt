//! The set-up lines that may stand, what each says, and the set-up that they add up to.
ghost use Rattle.std.specs.Prelude.{◌≡◌, ◌≤◌, ◌+◌, ◌++◌, ◌^◌, length};
ghost use Rattle.setups.specs.Setups.{lists_of};
ghost use Rattle.script_text.specs.SetupLines.{pages_from, too_many_pages, with_line};
ghost use Rattle.script_text.specs.SetupRules.{HasRoomFor, setup_line};
ghost use Rattle.script_text.specs.Stages.{is_setup_form};

use crate::keywords::Form;
use crate::setup_parser::{SetupLine, bad_line, config_line, page_count, page_line, region_line};
use arrayvec::ArrayVec;
use line_text::Words;
use setups::Setup;
use subordinate::PageKind;

/// The most pages of a set-up.
const MOST_PAGES: usize = 64;

/// A set-up as the lines of a script add up to it.
pub trait ScriptSetup {
    ghost use Rattle.std.specs.Prelude.{◌≡◌, false};
    ghost use Rattle.script_text.specs.Forms.{told_as};
    ghost use Rattle.script_text.specs.SetupRules.{SetupRules};
    ghost use Rattle.script_text.specs.Stages.{TakesLine};

    /// What its lists are.
    ghost Lists: { Type 0 };

    /// Its lists.
    ghost lists: { Self → Lists };

    /// What its lines may be, and what they add up to.
    ghost rules: { SetupRules Lists };

    /// The set-up of a `config` line alone, or that line's first wrong word.
    fn of_config(words: &Words<'_>) -> Result<Self, u32>
        ensures { told_as lists result ≡ rules.of_config words.now };

    /// Whether it has no room for one line more of this form.
    fn has_no_room(&self, form: Form, words: &Words<'_>) -> bool
        ensures { result ≡ rules.has_no_room (lists self.now) form words.now };

    /// Adds a line of a form that isn't `config`, for which it has room, or answers its first wrong word.
    fn add(&mut self, form: Form, words: &Words<'_>) -> Result<(), u32>
        requires { rules.has_no_room (lists self.old) form words.now ≡ false }
        ensures { TakesLine (rules.with_line (lists self.old) form words.now) (lists self.new) result };
}

/// Whether a line of this form is a set-up line.
pub fn is_setup_form(form: Form) -> bool
    ensures { result ≡ is_setup_form form }
{
    matches!(
        form,
        Form::Config | Form::Region | Form::Page | Form::BadWord
    )
}

/// Whether so many pages more have room, and numbers to 2^32 - 1, where the words of their line tell.
pub(crate) fn too_many_pages(pages: usize, words: &Words<'_>) -> bool
    ensures { result ≡ too_many_pages pages words.now }
{
    if pages >= MOST_PAGES {
        return true;
    }
    let Ok(count) = page_count(words) else {
        return false;
    };
    if pages + usize::from(count) > MOST_PAGES {
        return true;
    }
    match words.address(2) {
        Ok(first) => u64::from(first) + u64::from(count) > 1 << 32,
        Err(_) => false,
    }
}

/// What a set-up line of this form says, or its first wrong word: word 1, where the form is no set-up line's, or `config`'s.
pub fn setup_line(form: Form, words: &Words<'_>) -> Result<SetupLine, u32>
    ensures { result ≡ setup_line form words.now }
{
    match form {
        Form::Region => region_line(words),
        Form::Page => page_line(words),
        Form::BadWord => bad_line(words),
        _ => Err(1),
    }
}

/// Adds pages that follow each other, for which there is room.
pub(crate) fn add_pages(
    pages: &mut ArrayVec<(u32, PageKind), 64>,
    first: u32,
    count: u8,
    kind: PageKind,
)
    requires room { length pages.old.items + count ≤ 64 }
    requires numbers { first + count ≤ 2 ^ 32 }
    ensures { pages.new.items ≡ pages.old.items ++ pages_from first count kind }
{
    for k in 0..u32::from(count) {
        pages.push((first + k, kind));
    }
}

/// Adds a line for which a set-up has room.
pub fn add_line(setup: &mut Setup, line: SetupLine)
    requires { HasRoomFor (lists_of setup.old) line }
    ensures { lists_of setup.new ≡ with_line (lists_of setup.old) line }
{
    match line {
        SetupLine::Region(region) => setup.regions.push(region),
        SetupLine::Pages(first, count, kind) => add_pages(&mut setup.pages, first, count, kind),
        SetupLine::BadWord(address) => setup.bad_words.push(address),
    }
}

impl ScriptSetup for Setup {
    ghost use Rattle.setups.specs.Setups.{SetupLists, lists_of};
    ghost use Rattle.script_text.specs.SetupRules.{bridge_rules};

    ghost Lists = { SetupLists };

    ghost lists = { lists_of };

    ghost rules = { bridge_rules };

    fn of_config(words: &Words<'_>) -> Result<Setup, u32> {
        Ok(Setup::new(config_line(words)?))
    }

    fn has_no_room(&self, form: Form, words: &Words<'_>) -> bool {
        match form {
            Form::Config => true,
            Form::Region => self.regions.is_full(),
            Form::Page => too_many_pages(self.pages.len(), words),
            Form::BadWord => self.bad_words.is_full(),
            _ => false,
        }
    }

    fn add(&mut self, form: Form, words: &Words<'_>) -> Result<(), u32> {
        let line = setup_line(form, words)?;
        add_line(self, line);
        Ok(())
    }
}
