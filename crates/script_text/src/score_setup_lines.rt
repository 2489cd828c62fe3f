//! The set-up of a bridge that is only observed, as lines add up to it.
ghost use Rattle.std.specs.Prelude.{◌≡◌};
ghost use Rattle.line_text.specs.Fields.{Reads, read_as};
ghost use Rattle.line_text.specs.Words.{word_at};
ghost use Rattle.script_text.specs.Forms.{range_kind_field};
ghost use Rattle.script_text.specs.SetupRules.{range_fields, range_in, range_kind_in, too_many_ranges};

use crate::keywords::Form;
use crate::setup_lines::ScriptSetup;
use crate::setup_parser::{bad_word, range_count, region, score_config_line};
use line_text::Words;
use score_setup::ScoreSetup;
use sparse_memory::{PageRange, RangeKind};

/// The most `page` lines of a set-up.
const MOST_RANGES: usize = 1024;

/// Whether there is no room for a line of pages beside those held, or a page of it has a number over 2^32 - 1.
fn too_many_ranges(held: usize, words: &Words<'_>) -> bool
    ensures { result ≡ too_many_ranges held words.now }
{
    if held >= MOST_RANGES {
        return true;
    }
    let Ok(count) = range_count(words) else {
        return false;
    };
    match words.address(2) {
        Ok(first) => u64::from(first) + u64::from(count) > 1 << 32,
        Err(_) => false,
    }
}

/// What the pages of a range are.
fn range_kind(words: &Words<'_>) -> Result<RangeKind, u32>
    ensures { Reads (range_kind_field (word_at words.now 4)) (range_kind_in (word_at words.now 4)) 4 result }
{
    match words.at(4) {
        b"good" => Ok(RangeKind::Zeros),
        b"slverr" => Ok(RangeKind::SlaveError),
        b"any" => Ok(RangeKind::Unknown),
        _ => Err(4),
    }
}

/// `page AXIPAGE COUNT KIND`.
fn page_range(words: &Words<'_>) -> Result<PageRange, u32>
    ensures { result ≡ read_as range_fields words.now (range_in words.now) }
{
    let first = words.address(2)?;
    let count = range_count(words)?;
    let kind = range_kind(words)?;
    words.end(4)?;
    Ok(PageRange { first, count, kind })
}

impl ScriptSetup for ScoreSetup {
    ghost use Rattle.score_setup.specs.ScoreSetups.{RangeLists, ranges_of};
    ghost use Rattle.script_text.specs.SetupRules.{score_rules};

    ghost Lists = { RangeLists };

    ghost lists = { ranges_of };

    ghost rules = { score_rules };

    fn of_config(words: &Words<'_>) -> Result<ScoreSetup, u32> {
        Ok(ScoreSetup::new(score_config_line(words)?))
    }

    fn has_no_room(&self, form: Form, words: &Words<'_>) -> bool {
        match form {
            Form::Config => true,
            Form::Region => self.regions.is_full(),
            Form::Page => too_many_ranges(self.pages.len(), words),
            Form::BadWord => self.bad_words.is_full(),
            _ => false,
        }
    }

    fn add(&mut self, form: Form, words: &Words<'_>) -> Result<(), u32> {
        match form {
            Form::Region => self.regions.push(region(words)?),
            Form::Page => self.pages.push(page_range(words)?),
            Form::BadWord => self.bad_words.push(bad_word(words)?),
            _ => return Err(1),
        }
        Ok(())
    }
}
