use hack_values::Cell;

/// What a native answers: a value, or that it raises for these arguments.
#[derive(Debug, Drop)]
pub enum NativeAnswer {
    Value(Cell),
    Throws,
}
