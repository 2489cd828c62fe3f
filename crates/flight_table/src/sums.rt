//! Sums over the live requests.
ghost use Rattle.std.specs.Prelude.{◌≡◌};
ghost use Rattle.flight_table.specs.Sums.{ArePart, AreSmall, IsSmall, no_sums, plus_sums, with_sums};

use crate::live_request::LiveRequest;

/// The work of a request, and of that the work of its unsent bursts.
#[derive(Clone, Copy)]
pub(crate) struct Works {
    pub(crate) work: u64,
    pub(crate) unsent: u64,
}

/// How many requests aren't done, their work, and the work of their unsent bursts.
#[derive(Clone, Copy)]
pub(crate) struct Sums {
    pub(crate) undone: u64,
    pub(crate) work: u64,
    pub(crate) unsent: u64,
}

impl Sums {
    /// The sums of no requests.
    pub(crate) fn new() -> Self
        ensures { result ≡ no_sums }
    {
        Sums {
            undone: 0,
            work: 0,
            unsent: 0,
        }
    }

    /// The sums with one more request.
    pub(crate) fn with(self, request: &LiveRequest) -> Self
        requires { AreSmall self }
        ensures sums { result ≡ with_sums request.now self }
        ensures small { IsSmall request.now }
    {
        let works = request.works();
        Sums {
            undone: self.undone + u64::from(!request.done),
            work: self.work + works.work,
            unsent: self.unsent + works.unsent,
        }
    }

    /// The sums with so much less, which is part of them.
    #[inline(always)]
    pub(crate) fn less(self, part: Sums) -> Self
        requires { ArePart part self }
        ensures { plus_sums part result ≡ self }
    {
        Sums {
            undone: self.undone - part.undone,
            work: self.work - part.work,
            unsent: self.unsent - part.unsent,
        }
    }
}
