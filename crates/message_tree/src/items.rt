// What one participant does with one slot of the bus.

ghost use Rattle.std.specs.Prelude.{◌≡◌};
ghost use Rattle.message_tree.specs.Items.{kind_of};
ghost use Rattle.message_tree.specs.Symbols.{symbol_of, kind_word};

/// What one participant does with one slot.
#[derive(Clone, Copy, PartialEq, Eq)]
pub enum Item {
    /// The participant drives this bit, `0` or `1` (UM10204, 3.1.5).
    Sent(bool),
    /// A target drives this bit, `l` or `h`, and the participant listens (UM10204, 3.1.6).
    Heard(bool),
    /// A repeated START, `r` (UM10204, 3.1.10).
    Again,
    /// A STOP, `s` (UM10204, 3.1.4).
    Stop,
    /// An interrupt waits for the answer to its header, `c` (our profile).
    Claim,
}

/// An item without its bit. Two different kinds that meet in one slot are a fault (UM10204, 3.1.8), and so are two
/// claims.
#[derive(Clone, Copy, PartialEq, Eq)]
pub enum Kind {
    /// A bit that a participant drives, `data`.
    Sent,
    /// A bit that a target drives, `answer`.
    Heard,
    /// A repeated START, `restart`.
    Again,
    /// A STOP, `stop`.
    Stop,
    /// An interrupt that waits, `claim`.
    Claim,
}

impl Item {
    /// The item's kind.
    pub fn kind(&self) -> Kind
        ensures { result ≡ kind_of self.now }
    {
        match self {
            Item::Sent(_) => Kind::Sent,
            Item::Heard(_) => Kind::Heard,
            Item::Again => Kind::Again,
            Item::Stop => Kind::Stop,
            Item::Claim => Kind::Claim,
        }
    }

    /// The character that stands for the item in a wire: `0`, `1`, `l`, `h`, `r`, `s` or `c`.
    pub fn symbol(&self) -> char
        ensures { result ≡ symbol_of self.now }
    {
        match self {
            Item::Sent(false) => '0',
            Item::Sent(true) => '1',
            Item::Heard(false) => 'l',
            Item::Heard(true) => 'h',
            Item::Again => 'r',
            Item::Stop => 's',
            Item::Claim => 'c',
        }
    }
}

impl Kind {
    /// The word for the kind: `data`, `answer`, `restart`, `stop` or `claim`.
    pub fn word(&self) -> &'static str
        ensures { result.now ≡ kind_word self.now }
    {
        match self {
            Kind::Sent => "data",
            Kind::Heard => "answer",
            Kind::Again => "restart",
            Kind::Stop => "stop",
            Kind::Claim => "claim",
        }
    }
}
