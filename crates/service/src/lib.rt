// Lists of calls on one sheet: each is performed in turn under the notes standing when it comes, and none is passed over.
#![tactic(auto)]

pub mod call;
pub mod laws;
pub mod serve;
