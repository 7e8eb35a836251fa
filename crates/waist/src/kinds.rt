// The kinds of symbols. The lent tables hold a kind as a byte, as C callers see them: it is read once, as a `Kind`.
ghost use Rattle.std.specs.Prelude.{◌≡◌};
ghost use Rattle.steps.specs.Symbol.{is_error, is_pivotable};
ghost use Rattle.waist.specs.Kinds.{kind_byte, KindOf};
ghost use Rattle.waist.specs.substituting.Notes.{is_external_kind};
ghost use Rattle.waist.specs.Choosing.{is_dummy_kind};
ghost use Rattle.waist.specs.Looks.{of_kind};

// What a symbol is for.
#[derive(Clone, Copy)]
pub enum Kind {
    External,
    Slack,
    Error,
    Dummy,
}

impl From<u8> for Kind {
    ghost from_gives = { λ byte kind. KindOf byte kind };

    fn from(byte: u8) -> Kind {
        match byte {
            1 => Kind::Slack,
            2 => Kind::Error,
            3 => Kind::Dummy,
            _ => Kind::External,
        }
    }
}

impl Kind {
    // As the tables hold it.
    pub fn byte(self) -> u8
        ensures { result ≡ kind_byte self }
    {
        self as u8
    }

    pub fn is_external(self) -> bool
        ensures { result ≡ is_external_kind (kind_byte self) }
    {
        matches!(self, Kind::External)
    }

    pub fn is_error(self) -> bool
        ensures { result ≡ is_error (of_kind (kind_byte self)) }
    {
        matches!(self, Kind::Error)
    }

    pub fn is_dummy(self) -> bool
        ensures { result ≡ is_dummy_kind (kind_byte self) }
    {
        matches!(self, Kind::Dummy)
    }

    // "slack or Error"
    pub fn is_pivotable(self) -> bool
        ensures { result ≡ is_pivotable (of_kind (kind_byte self)) }
    {
        matches!(self, Kind::Slack | Kind::Error)
    }
}
