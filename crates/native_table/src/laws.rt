ghost use Rattle.std.specs.Prelude.{codes};
ghost use Rattle.native_table.specs.Rows.{HoldsValues, any_int, any_str};

/// What the six natives give is of these types, for all arguments, as a `Native` asks.
pub fn native_values_are_typed()
    ensures strlen { HoldsValues (codes "strlen") 1 any_int }
    ensures str_repeat { HoldsValues (codes "str_repeat") 2 any_str }
    ensures abs { HoldsValues (codes "abs") 1 any_int }
    ensures min { HoldsValues (codes "min") 2 any_int }
    ensures max { HoldsValues (codes "max") 2 any_int }
    ensures count { HoldsValues (codes "count") 1 any_int }
{}
