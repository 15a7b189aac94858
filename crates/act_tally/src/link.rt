//! A share of the table.
ghost use Rattle.std.specs.Prelude.{◌≡◌, IfOk};
ghost use Rattle.std.specs.Arc.{arc_value};
ghost use Rattle.atomic_table.specs.Seated.{TableId, table_id_coded};

use crate::rule::{Board, Numbers, Sizes};
use crate::views::View;
use atomic_table::Shared;
use std::alloc::{AllocError, Global};
use std::marker::Model;
use std::sync::Arc;

#[derive(Drop)]
pub(crate) struct Link {
    board: Arc<Board<Global>, Global>,
}

impl Model for Link {
    ghost Value = { TableId };

    ghost coded = { table_id_coded };

    ghost view = { λ l. (arc_value l.board).shared.table_id };
}

impl Link {
    pub(crate) fn new(alloc: Global, board: Board<Global>) -> Result<Link, AllocError>
        ensures { IfOk result (λ l. l ≡ board.shared.table_id) }
    {
        let board = Arc::new(alloc, board)?;
        Ok(Link { board })
    }

    pub(crate) fn another(&self) -> Result<Link, AllocError>
        ensures { IfOk result (λ l. l ≡ self.now) }
    {
        let board = Arc::try_clone(&self.board)?;
        Ok(Link { board })
    }

    pub(crate) fn shared(&self) -> &Shared<(), View, Sizes, Numbers>
        ensures { result.now.table_id ≡ self.now }
    {
        &self.board.shared
    }
}
