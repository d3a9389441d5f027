// The types of a message, and the questions that the rules ask of them.
#![tactic(auto)]

ghost use Rattle.std.specs.Prelude.{◌≡◌};
ghost use Rattle.message_type.specs.Questions.{is_on, is_cc, is_dk, is_cx, is_other, brings_lots, lists_lots, lists_all, buyer_submits, answers_as_dk};

// The four types of the tally, and every other.
#[derive(Clone, Copy, PartialEq, Eq)]
pub enum MessageType {
    On,
    Cc,
    Dk,
    Cx,
    Other,
}

impl MessageType {
    // An ON.
    pub fn is_on(self) -> bool
        ensures { result ≡ is_on self }
    {
        self == MessageType::On
    }

    // A CC.
    pub fn is_cc(self) -> bool
        ensures { result ≡ is_cc self }
    {
        self == MessageType::Cc
    }

    // A DK.
    pub fn is_dk(self) -> bool
        ensures { result ≡ is_dk self }
    {
        self == MessageType::Dk
    }

    // A CX.
    pub fn is_cx(self) -> bool
        ensures { result ≡ is_cx self }
    {
        self == MessageType::Cx
    }

    // None of the four.
    pub fn is_other(self) -> bool
        ensures { result ≡ is_other self }
    {
        self == MessageType::Other
    }

    // An ON and a CC bring new lots.
    pub fn brings_lots(self) -> bool
        ensures { result ≡ brings_lots self }
    {
        matches!(self, MessageType::On | MessageType::Cc)
    }

    // A CC and a DK list live lots under a target.
    pub fn lists_lots(self) -> bool
        ensures { result ≡ lists_lots self }
    {
        matches!(self, MessageType::Cc | MessageType::Dk)
    }

    // Of these a DK lists all its pools, a CC the canceled ones.
    pub fn lists_all(self) -> bool
        ensures { result ≡ lists_all self }
    {
        self.is_dk()
    }

    // The buyer of a trade submits a DK, the seller every other.
    pub fn buyer_submits(self) -> bool
        ensures { result ≡ buyer_submits self }
    {
        self.is_dk()
    }

    // A trader's number on it is rejected, where it DKs every other.
    pub fn answers_as_dk(self) -> bool
        ensures { result ≡ answers_as_dk self }
    {
        self.is_dk()
    }
}
