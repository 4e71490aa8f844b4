//! From a plan to registers: which bytes are open to whom, and the writes that make them so.
//!
//! `read_plan` reads the rows of a plan, `plan` finds the writes, and `meets` says whether a register file meets a
//! plan. The definitions that the contracts cite are in `specs/`.
#![tactic(auto)]

mod aim;
mod answer;
mod array;
mod choices;
mod cost;
mod fault;
mod judge;
mod layout;
mod leading;
mod letters;
mod level;
mod moves;
mod order;
mod parts;
mod passing;
mod plan_of;
mod plan_row;
mod planning;
mod reading;
mod room_plan;
mod row_faults;
mod row_list;
mod rows;
mod script;
mod search;
mod security;
mod soundness;
mod state;
mod unmet;
mod verdicts;
mod writes;

pub use aim::{Aim, Goal, Watch};
pub use answer::{Form, Wanted, plan_text};
pub use array::append_array;
pub use judge::meets;
pub use leading::plan;
pub use level::{SEARCH_ROOM, search_room};
pub use passing::leads;
pub use plan_of::{implemented_plan, registers_after};
pub use plan_row::{Demand, PlanRow};
pub use reading::{read_plan, read_plan_to};
pub use room_plan::{AskedPlan, append_plan};
pub use row_list::RowList;
pub use script::append_script;
pub use security::Security;
pub use state::State;
pub use unmet::Unmet;
pub use verdicts::append_verdicts;
