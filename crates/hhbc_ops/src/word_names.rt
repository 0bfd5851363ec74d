ghost use Rattle.std.specs.Prelude.{◌≡◌, ◌≢◌, MatchOption, Some};
ghost use Rattle.hhbc_ops.specs.Words as words;

use crate::named::{Named, first_named};
use crate::words::{IncDecOp, IsTypeOp, QueryMode, SetOpOp};

/// The word of the operator of a compound assignment.
pub fn set_op_name(op: SetOpOp) -> &'static str
    ensures { result.now ≡ words.set_op_name op }
{
    match op {
        SetOpOp::PlusEqual => "PlusEqual",
        SetOpOp::MinusEqual => "MinusEqual",
        SetOpOp::MulEqual => "MulEqual",
        SetOpOp::ModEqual => "ModEqual",
        SetOpOp::ConcatEqual => "ConcatEqual",
        SetOpOp::AndEqual => "AndEqual",
        SetOpOp::OrEqual => "OrEqual",
        SetOpOp::XorEqual => "XorEqual",
        SetOpOp::SlEqual => "SlEqual",
        SetOpOp::SrEqual => "SrEqual",
    }
}

/// The operator of a compound assignment of this word.
pub fn set_op_named(name: &[u8]) -> Option<SetOpOp>
    ensures only { MatchOption result ((op : SetOpOp) → words.set_op_name op ≢ name.now) (λ op. words.set_op_name op ≡ name.now) }
    ensures each { (op : SetOpOp) → words.set_op_name op ≡ name.now → result ≡ Some op }
{
    first_named(
        &[
            SetOpOp::PlusEqual,
            SetOpOp::MinusEqual,
            SetOpOp::MulEqual,
            SetOpOp::ModEqual,
            SetOpOp::ConcatEqual,
            SetOpOp::AndEqual,
            SetOpOp::OrEqual,
            SetOpOp::XorEqual,
            SetOpOp::SlEqual,
            SetOpOp::SrEqual,
        ],
        name,
    )
}

impl Named for SetOpOp {
    ghost use Rattle.hhbc_ops.specs.Words.{set_op_name};

    ghost spelling = { set_op_name };

    fn name(self) -> &'static str {
        set_op_name(self)
    }
}

/// The word of the change.
pub fn inc_dec_name(op: IncDecOp) -> &'static str
    ensures { result.now ≡ words.inc_dec_name op }
{
    match op {
        IncDecOp::PreInc => "PreInc",
        IncDecOp::PostInc => "PostInc",
        IncDecOp::PreDec => "PreDec",
        IncDecOp::PostDec => "PostDec",
    }
}

/// The change of this word.
pub fn inc_dec_named(name: &[u8]) -> Option<IncDecOp>
    ensures only { MatchOption result ((op : IncDecOp) → words.inc_dec_name op ≢ name.now) (λ op. words.inc_dec_name op ≡ name.now) }
    ensures each { (op : IncDecOp) → words.inc_dec_name op ≡ name.now → result ≡ Some op }
{
    first_named(
        &[
            IncDecOp::PreInc,
            IncDecOp::PostInc,
            IncDecOp::PreDec,
            IncDecOp::PostDec,
        ],
        name,
    )
}

impl Named for IncDecOp {
    ghost use Rattle.hhbc_ops.specs.Words.{inc_dec_name};

    ghost spelling = { inc_dec_name };

    fn name(self) -> &'static str {
        inc_dec_name(self)
    }
}

/// The word of the query.
pub fn query_mode_name(op: QueryMode) -> &'static str
    ensures { result.now ≡ words.query_mode_name op }
{
    match op {
        QueryMode::CGet => "CGet",
        QueryMode::CGetQuiet => "CGetQuiet",
        QueryMode::Isset => "Isset",
    }
}

/// The query of this word.
pub fn query_mode_named(name: &[u8]) -> Option<QueryMode>
    ensures only { MatchOption result ((op : QueryMode) → words.query_mode_name op ≢ name.now) (λ op. words.query_mode_name op ≡ name.now) }
    ensures each { (op : QueryMode) → words.query_mode_name op ≡ name.now → result ≡ Some op }
{
    first_named(
        &[QueryMode::CGet, QueryMode::CGetQuiet, QueryMode::Isset],
        name,
    )
}

impl Named for QueryMode {
    ghost use Rattle.hhbc_ops.specs.Words.{query_mode_name};

    ghost spelling = { query_mode_name };

    fn name(self) -> &'static str {
        query_mode_name(self)
    }
}

/// The word of the kind of value.
pub fn is_type_name(op: IsTypeOp) -> &'static str
    ensures { result.now ≡ words.is_type_name op }
{
    match op {
        IsTypeOp::Null => "Null",
        IsTypeOp::Bool => "Bool",
        IsTypeOp::Int => "Int",
        IsTypeOp::Str => "Str",
        IsTypeOp::Vec => "Vec",
        IsTypeOp::Dict => "Dict",
        IsTypeOp::Keyset => "Keyset",
        IsTypeOp::Obj => "Obj",
    }
}

/// The kind of value of this word.
pub fn is_type_named(name: &[u8]) -> Option<IsTypeOp>
    ensures only { MatchOption result ((op : IsTypeOp) → words.is_type_name op ≢ name.now) (λ op. words.is_type_name op ≡ name.now) }
    ensures each { (op : IsTypeOp) → words.is_type_name op ≡ name.now → result ≡ Some op }
{
    first_named(
        &[
            IsTypeOp::Null,
            IsTypeOp::Bool,
            IsTypeOp::Int,
            IsTypeOp::Str,
            IsTypeOp::Vec,
            IsTypeOp::Dict,
            IsTypeOp::Keyset,
            IsTypeOp::Obj,
        ],
        name,
    )
}

impl Named for IsTypeOp {
    ghost use Rattle.hhbc_ops.specs.Words.{is_type_name};

    ghost spelling = { is_type_name };

    fn name(self) -> &'static str {
        is_type_name(self)
    }
}
