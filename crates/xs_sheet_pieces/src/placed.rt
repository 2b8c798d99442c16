//! Tasks with their places.

use std::marker::Model;
use xs_body::task::Task;
use xs_core::place::Place;

/// A task at a place of the tree of pieces. Contracts see it as plain data.
#[derive(Drop)]
pub struct PlacedTask<'a> {
    /// Its place.
    pub place: Place,
    /// The task.
    pub task: Task<'a>,
}

impl<'a> Model for PlacedTask<'a> {
    ghost use Rattle.std.specs.Coded.{codes};
    ghost use Rattle.xs_sheet.specs.contracts.body.Body as body;
    ghost use Rattle.xs_sheet.specs.contracts.body.Content as content;
    ghost use Rattle.xs_task_laws.specs.Placed.{Placed};

    ghost Value = { Placed };

    ghost coded = { Prim.hlevel (codes, body.the_row.coded, content.the_row.coded) };

    ghost view = { λ t. record { place = t.place; task = t.task } };
}
