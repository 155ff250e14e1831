// A year's kind, "1 delivery, 0 valuation only".
ghost use Rattle.layout.specs.Kind.{Decodes};

// What a year is for.
#[derive(Clone, Copy, PartialEq, Eq)]
pub enum Kind {
    ValuationOnly,
    Delivery,
}

// A number that is no kind.
#[derive(Clone, Copy, PartialEq, Eq)]
pub struct UnknownKind(pub u64);

impl TryFrom<u64> for Kind {
    type Error = UnknownKind;

    ghost try_from_gives = { Decodes };

    fn try_from(number: u64) -> Result<Self, UnknownKind> {
        match number {
            names::VALUATION_ONLY => Ok(Kind::ValuationOnly),
            names::DELIVERY => Ok(Kind::Delivery),
            _ => Err(UnknownKind(number)),
        }
    }
}
