// The kinds of nodes, by byte 0 of a node's record (document 01, "The recipe table").

ghost use Rattle.table.specs.Kinds.{Decodes};

#[derive(Clone, Copy)]
pub(crate) enum Kind {
    Val,
    Throw,
    Add,
    Seqn,
    Catch,
    Block,
    Unblock,
}

// A byte that is the number of no kind.
#[derive(Clone, Copy)]
pub(crate) struct UnknownKind;

impl TryFrom<u8> for Kind {
    type Error = UnknownKind;

    ghost try_from_gives = { Decodes };

    #[tactic(auto, unfolding(rules::specs::Table::kinds, rules::specs::Bytes::row_numbered))]
    fn try_from(byte: u8) -> Result<Self, UnknownKind> {
        match byte {
            1 => Ok(Kind::Val),
            2 => Ok(Kind::Throw),
            3 => Ok(Kind::Add),
            4 => Ok(Kind::Seqn),
            5 => Ok(Kind::Catch),
            6 => Ok(Kind::Block),
            7 => Ok(Kind::Unblock),
            _ => Err(UnknownKind),
        }
    }
}
