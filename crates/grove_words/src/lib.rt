//! The words of a command line: the order that they are, or what they are told.
#![tactic(auto)]

pub use command_line::order_of;
pub use no_order::{NoOrder, not_text};
pub use order::{
    Command, Document, Form, Front, Invocation, LogForm, Order, Patience, Place, Port, Serving,
    SyncEach, Workers,
};

mod arguments;
mod command_line;
mod definitions;
mod hosts;
mod log_form;
mod no_order;
mod options;
mod order;
mod places;
mod sync_each;
mod tips;
mod togetherness;
