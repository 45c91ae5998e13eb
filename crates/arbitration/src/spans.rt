// Spans of slots, and the outcomes of two participants.

ghost use Rattle.std.specs.Prelude.{◌≡◌, Some, None};
ghost use Rattle.arbitration.specs.Spans.{union_of, after_of, HasRoom};
ghost use Rattle.arbitration.specs.Ways.{Way, span_of, AllHaveRoom};

/// The earliest and the latest slot in which something may happen. Slots are counted from 0, after the START.
#[derive(Clone, Copy, PartialEq, Eq)]
pub struct Slots {
    pub earliest: u32,
    pub latest: u32,
}

/// What two participants may come to when they start together, and when: `None` where it never happens
/// (UM10204, 3.1.8).
#[derive(Clone, Copy, PartialEq, Eq)]
pub struct Outcomes {
    /// Both end, by one STOP.
    pub both: Option<Slots>,
    /// The second loses arbitration, and the first goes on.
    pub first: Option<Slots>,
    /// The first loses arbitration, and the second goes on.
    pub second: Option<Slots>,
}

// The earlier of the earliest and the later of the latest.
pub(crate) fn union(a: Option<Slots>, b: Option<Slots>) -> Option<Slots>
    ensures { result ≡ union_of a b }
{
    match a {
        None => b,
        Some(s) => match b {
            None => a,
            Some(t) => Some(Slots {
                earliest: s.earliest.min(t.earliest),
                latest: s.latest.max(t.latest),
            }),
        },
    }
}

// The same, so many slots later.
pub(crate) fn after(span: Option<Slots>, slots: u32) -> Option<Slots>
    requires { HasRoom slots span }
    ensures { result ≡ after_of slots span }
{
    match span {
        None => None,
        Some(s) => Some(Slots {
            earliest: s.earliest + slots,
            latest: s.latest + slots,
        }),
    }
}

impl Outcomes {
    // None of the three.
    pub(crate) fn none() -> Outcomes
        ensures { (way : Way) → span_of way result ≡ None }
    {
        Outcomes {
            both: None,
            first: None,
            second: None,
        }
    }

    // Both end in the next slot.
    pub(crate) fn end_at_once() -> Outcomes
        ensures both { result.both ≡ Some (record { earliest = 0; latest = 0 }) }
        ensures first { result.first ≡ None }
        ensures second { result.second ≡ None }
    {
        let next = Slots {
            earliest: 0,
            latest: 0,
        };
        Outcomes {
            both: Some(next),
            first: None,
            second: None,
        }
    }

    // Those of either.
    pub(crate) fn union(self, other: Outcomes) -> Outcomes
        ensures { (way : Way) → span_of way result ≡ union_of (span_of way self) (span_of way other) }
    {
        Outcomes {
            both: union(self.both, other.both),
            first: union(self.first, other.first),
            second: union(self.second, other.second),
        }
    }

    // The same, so many slots later.
    pub(crate) fn after(self, slots: u32) -> Outcomes
        requires { AllHaveRoom slots self }
        ensures { (way : Way) → span_of way result ≡ after_of slots (span_of way self) }
    {
        Outcomes {
            both: after(self.both, slots),
            first: after(self.first, slots),
            second: after(self.second, slots),
        }
    }
}
