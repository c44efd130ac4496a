// Everything that counts holders: the value that more than half of the bins share, and the value that most nodes put out.
#![tactic(auto)]

use plan::Plan;

pub mod step;

// Words packed: the first `count` are those that are there.
#[derive(Clone, Copy)]
pub struct Words {
    pub words: [u64; Plan::NODES],
    pub count: usize,
}
