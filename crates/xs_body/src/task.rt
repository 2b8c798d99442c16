//! Runs over nodes that are left to be evaluated apart.

use crate::passed::Passed;
use std::marker::Model;
use std::sync::Arc;
use xs_body_spec::focus::Focus;
use xs_sheet::body::Body;
use xs_trace::item::Site;
use xs_tree::Node;
use xs_value::value::Value;

/// What is done at each node of a run.
#[derive(Drop)]
pub enum Job<'a> {
    /// A body, with the local variables that it sees (XSLT 1.0, 8).
    Body(&'a Body, Arc<Vec<Value>>),
    /// The rule for the node in a mode, with what is passed to it (5.4).
    Rules(u32, Passed<'a>),
}

/// A run over nodes, for an instruction. Contracts see it as plain data.
#[derive(Drop)]
pub struct Task<'a> {
    /// What is done at each node.
    pub job: Job<'a>,
    /// The instruction.
    pub site: Site,
    /// What its nodes have in common.
    pub focus: Focus,
    /// The position of the first node.
    pub first: u32,
    /// The nodes.
    pub nodes: Vec<Node>,
}

impl<'a> Model for Task<'a> {
    ghost use Rattle.std.specs.Coded.{codes};
    ghost use Rattle.xs_sheet.specs.contracts.body.Body as body;
    ghost use Rattle.xs_sheet.specs.contracts.body.Content as content;
    ghost use Rattle.xs_body_spec.specs.Tasks.{Task};
    ghost use Rattle.xs_body.specs.steps.Jobs.{job_of};

    ghost Value = { Task };

    ghost coded = { Prim.hlevel (codes, body.the_row.coded, content.the_row.coded) };

    ghost view = { λ t. record {
      job = job_of t.job;
      site = t.site;
      focus = t.focus;
      first = t.first;
      nodes = t.nodes.items;
    } };
}
