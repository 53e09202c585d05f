//! What is read off a log, off the life of a site, and off an incarnation, the transactions that are open at it among
//! them: each function here computes one of the definitions by which a site's step is stated, and has its name. They
//! read everything anew each time, which serves where clearness counts more than speed. Want of memory is the only error.
#![tactic(auto)]

mod asked;
mod binding;
mod bound_names;
mod counts;
mod elections;
mod inputs;
mod lives;
mod logs;
mod opens;
mod operations;
mod own_writes;
mod places;
mod recovery_rounds;
mod rounds;
mod steps;
mod tables;
mod votes;

pub use asked::{add_asked, asked_of, copy_asked, first_asked, lock_for};
pub use binding::{bind, nothing_bound};
pub use bound_names::BoundNames;
pub use counts::number_behind;
pub use e3_locks::{add_name, add_names};
pub use elections::{
    Electing, election_anew, election_behind, election_in_progress, has_decision, has_verdict,
    is_decision, next_call,
};
pub use inputs::{inputs_asked, inputs_to, is_delivery};
pub use lives::{life_by, life_of, present_log};
pub use logs::{
    attempted, attempted_behind, attempted_by, decision, decision_behind, decision_by, has_voted,
    is_undecided, is_vote, key_of, last_attempt, last_attempt_behind, last_attempt_by,
    last_elected, last_elected_behind, last_elected_by, lock_on, logged_inc, mode_of, state_by,
    state_of, voted_locks, voted_ops,
};
pub use opens::{add_logged, add_undecided_in, in_order, open_in, txn_of_record};
pub use operations::{
    answers, arrivals, brought, done, expected, first_reason, holders, holds, is_among, is_new_to,
    issued, issued_in, kept_reason, nth_op, own_expected, queue, reasons_in, same_asked, tells_own,
    unanswered, waiting,
};
pub use own_writes::{last_own, own_write};
pub use places::{SiteRecord, add_placed};
pub use recovery_rounds::{RecoveryRound, rounds_of};
pub use rounds::{Rounds, round_in_progress};
pub use steps::{is_line, parts_due, step_items};
pub use tables::{install_op, row_value, rows_at, set_row, table_of};
pub use votes::{have_every_yes, votes_after, votes_in};
