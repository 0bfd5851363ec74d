//! The instructions, their operands and their names, after HHVM's `doc/bytecode.specification`.
#![tactic(auto)]

mod laws;
mod named;
mod op;
mod stack_use;
mod table;
mod word_names;
mod words;

pub use laws::{names_differ, rows_fit};
pub use op::{
    Op, has_next, immediates, may_throw, name_of, op_named, operand_use, slots_popped, slots_pushed,
};
pub use word_names::{
    inc_dec_name, inc_dec_named, is_type_name, is_type_named, query_mode_name, query_mode_named,
    set_op_name, set_op_named,
};
pub use words::{Flavour, ImmKind, IncDecOp, IsTypeOp, OperandUse, Pops, QueryMode, SetOpOp};
