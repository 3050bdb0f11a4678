// What a word of a rule text can be.

// A word with no operand; a name goes by its number.
#[derive(Clone, Copy)]
pub enum Leaf {
    True,
    False,
    Name(u8),
}

#[derive(Clone, Copy)]
pub enum Unary {
    Not,
    Next,
    Finally,
    Globally,
}

#[derive(Clone, Copy)]
pub enum Binary {
    And,
    Or,
    Implies,
    Until,
    Release,
}

// A word, by its number of operands.
#[derive(Clone, Copy)]
pub enum Word {
    Zero(Leaf),
    One(Unary),
    Two(Binary),
}
