// The kinds of calls, by the numbers that records begin with.

#[derive(Clone, Copy, Debug, PartialEq, Eq)]
pub enum Kind {
    Reader,
    Curve,
    Level,
    Mean,
    Trials,
    PanjerWillmot,
    Hesselager,
    Layers,
}

// A number that no kind has.
#[derive(Clone, Copy, Debug, PartialEq, Eq)]
pub struct UnknownKind(pub u64);

impl TryFrom<u64> for Kind {
    type Error = UnknownKind;

    fn try_from(number: u64) -> Result<Kind, UnknownKind> {
        match number {
            1 => Ok(Kind::Reader),
            2 => Ok(Kind::Curve),
            3 => Ok(Kind::Level),
            4 => Ok(Kind::Mean),
            5 => Ok(Kind::Trials),
            6 => Ok(Kind::PanjerWillmot),
            7 => Ok(Kind::Hesselager),
            8 => Ok(Kind::Layers),
            _ => Err(UnknownKind(number)),
        }
    }
}
