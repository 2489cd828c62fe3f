//! A script that asks, as it is read.

use crate::asked::Asked;
use line_text::Words;
use script_text::{Script, ScriptFault};
use setups::setup_fault;
use std::alloc::Global;
use std::io::Write;

impl Script for Asked {
    ghost use Rattle.std.specs.Prelude.{false, true};
    ghost use Rattle.threads_script.specs.Asked.{AskedLists, threads_reading};

    type Answer = Asked;

    ghost State = { AskedLists };

    ghost state = { λ asked. asked };

    ghost reading = { threads_reading };

    ghost is_silent = { λ asked. true };

    ghost grows = { false };

    fn most_lines() -> u32 {
        65_536
    }

    fn take_words<W: Write>(
        &mut self,
        _alloc: Global,
        number: u32,
        words: &Words<'_>,
        _writer: &mut W,
    ) -> Result<bool, ScriptFault> {
        match self.take_line(words) {
            Ok(()) => Ok(false),
            Err(word) => Err(ScriptFault::at(number, word)),
        }
    }

    fn end<W: Write>(
        self,
        _alloc: Global,
        number: u32,
        _writer: &mut W,
    ) -> Result<Asked, ScriptFault> {
        let Some(setup) = self.setup() else {
            return Err(ScriptFault::at(number, 1));
        };
        if let Some(fault) = setup_fault(setup) {
            return Err(ScriptFault::Setup(fault));
        }
        Ok(self)
    }
}
