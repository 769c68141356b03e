// The operators of a rule file: each has a number, 1 to 70 in this order, and a name.
ghost use Rattle.std.specs.Prelude.{◌≡◌, ◌==◌, Some, Decides, nat_eq};
ghost use Rattle.objects.specs.Operators.{number, name, operator_named};
ghost use Rattle.std.specs.Cmp.Rules.{comparing};
ghost use Rattle.std.proofs.Common.{rules};
ghost use Rattle.std.specs.Cmp as Keys;
ghost use Rattle.std.specs.Ordering.{on};

#[derive(Clone, Copy, Debug)]
pub enum Operator {
    Pop = 1,
    Exch = 2,
    Dup = 3,
    Copy = 4,
    Index = 5,
    Roll = 6,
    Clear = 7,
    Count = 8,
    Mark = 9,
    ClearToMark = 10,
    CountToMark = 11,
    Add = 12,
    Sub = 13,
    Mul = 14,
    Idiv = 15,
    Mod = 16,
    Neg = 17,
    Abs = 18,
    Eq = 19,
    Ne = 20,
    Gt = 21,
    Ge = 22,
    Lt = 23,
    Le = 24,
    And = 25,
    Or = 26,
    Xor = 27,
    Not = 28,
    True = 29,
    False = 30,
    Null = 31,
    Array = 32,
    OpenBracket = 33,
    CloseBracket = 34,
    Length = 35,
    Get = 36,
    Put = 37,
    Aload = 38,
    Astore = 39,
    Forall = 40,
    String = 41,
    Dict = 42,
    MaxLength = 43,
    Begin = 44,
    End = 45,
    Def = 46,
    Load = 47,
    Store = 48,
    Known = 49,
    Where = 50,
    CurrentDict = 51,
    CountDictStack = 52,
    UserDict = 53,
    Exec = 54,
    If = 55,
    IfElse = 56,
    For = 57,
    Repeat = 58,
    Loop = 59,
    Exit = 60,
    Stop = 61,
    Stopped = 62,
    Cvx = 63,
    Cvlit = 64,
    Cvn = 65,
    Xcheck = 66,
    Save = 67,
    Restore = 68,
    Print = 69,
    Equals = 70,
}

// Kept: no derive lists the variants of an enum, and `named` looks through all of them.
const ALL: [Operator; 70] = [
    Operator::Pop,
    Operator::Exch,
    Operator::Dup,
    Operator::Copy,
    Operator::Index,
    Operator::Roll,
    Operator::Clear,
    Operator::Count,
    Operator::Mark,
    Operator::ClearToMark,
    Operator::CountToMark,
    Operator::Add,
    Operator::Sub,
    Operator::Mul,
    Operator::Idiv,
    Operator::Mod,
    Operator::Neg,
    Operator::Abs,
    Operator::Eq,
    Operator::Ne,
    Operator::Gt,
    Operator::Ge,
    Operator::Lt,
    Operator::Le,
    Operator::And,
    Operator::Or,
    Operator::Xor,
    Operator::Not,
    Operator::True,
    Operator::False,
    Operator::Null,
    Operator::Array,
    Operator::OpenBracket,
    Operator::CloseBracket,
    Operator::Length,
    Operator::Get,
    Operator::Put,
    Operator::Aload,
    Operator::Astore,
    Operator::Forall,
    Operator::String,
    Operator::Dict,
    Operator::MaxLength,
    Operator::Begin,
    Operator::End,
    Operator::Def,
    Operator::Load,
    Operator::Store,
    Operator::Known,
    Operator::Where,
    Operator::CurrentDict,
    Operator::CountDictStack,
    Operator::UserDict,
    Operator::Exec,
    Operator::If,
    Operator::IfElse,
    Operator::For,
    Operator::Repeat,
    Operator::Loop,
    Operator::Exit,
    Operator::Stop,
    Operator::Stopped,
    Operator::Cvx,
    Operator::Cvlit,
    Operator::Cvn,
    Operator::Xcheck,
    Operator::Save,
    Operator::Restore,
    Operator::Print,
    Operator::Equals,
];

impl Operator {
    // Kept: `operator.number()` says which number is meant, where `u8::from(operator)` would not.
    pub fn number(self) -> u8
        ensures { result ≡ number self }
    {
        self as u8
    }

    // The name by which a rule file calls the operator.
    pub fn name(self) -> &'static [u8]
        ensures { result.now ≡ name self }
    {
        match self {
            Operator::Pop => b"pop",
            Operator::Exch => b"exch",
            Operator::Dup => b"dup",
            Operator::Copy => b"copy",
            Operator::Index => b"index",
            Operator::Roll => b"roll",
            Operator::Clear => b"clear",
            Operator::Count => b"count",
            Operator::Mark => b"mark",
            Operator::ClearToMark => b"cleartomark",
            Operator::CountToMark => b"counttomark",
            Operator::Add => b"add",
            Operator::Sub => b"sub",
            Operator::Mul => b"mul",
            Operator::Idiv => b"idiv",
            Operator::Mod => b"mod",
            Operator::Neg => b"neg",
            Operator::Abs => b"abs",
            Operator::Eq => b"eq",
            Operator::Ne => b"ne",
            Operator::Gt => b"gt",
            Operator::Ge => b"ge",
            Operator::Lt => b"lt",
            Operator::Le => b"le",
            Operator::And => b"and",
            Operator::Or => b"or",
            Operator::Xor => b"xor",
            Operator::Not => b"not",
            Operator::True => b"true",
            Operator::False => b"false",
            Operator::Null => b"null",
            Operator::Array => b"array",
            Operator::OpenBracket => b"[",
            Operator::CloseBracket => b"]",
            Operator::Length => b"length",
            Operator::Get => b"get",
            Operator::Put => b"put",
            Operator::Aload => b"aload",
            Operator::Astore => b"astore",
            Operator::Forall => b"forall",
            Operator::String => b"string",
            Operator::Dict => b"dict",
            Operator::MaxLength => b"maxlength",
            Operator::Begin => b"begin",
            Operator::End => b"end",
            Operator::Def => b"def",
            Operator::Load => b"load",
            Operator::Store => b"store",
            Operator::Known => b"known",
            Operator::Where => b"where",
            Operator::CurrentDict => b"currentdict",
            Operator::CountDictStack => b"countdictstack",
            Operator::UserDict => b"userdict",
            Operator::Exec => b"exec",
            Operator::If => b"if",
            Operator::IfElse => b"ifelse",
            Operator::For => b"for",
            Operator::Repeat => b"repeat",
            Operator::Loop => b"loop",
            Operator::Exit => b"exit",
            Operator::Stop => b"stop",
            Operator::Stopped => b"stopped",
            Operator::Cvx => b"cvx",
            Operator::Cvlit => b"cvlit",
            Operator::Cvn => b"cvn",
            Operator::Xcheck => b"xcheck",
            Operator::Save => b"save",
            Operator::Restore => b"restore",
            Operator::Print => b"print",
            Operator::Equals => b"=",
        }
    }

    // The operator that has this name, if there is one. No two operators share a name.
    pub fn named(text: &[u8]) -> Option<Operator>
        ensures answer { result ≡ operator_named text.now }
        ensures unique { (o : Operator) → operator_named (name o) ≡ Some o }
    {
        ALL.iter().copied().find(|operator| operator.name() == text)
    }
}

// Two operators are the same exactly when their numbers are.
// Kept: `==` by hand, since a derived one has no method on which the two clauses could stand for its callers.
impl PartialEq for Operator {
    ghost eq = { on number nat_eq };

    ghost laws = { Keys.partial_equiv_from_equiv (Prim.search (comparing, rules)) };

    fn eq(&self, other: &Operator) -> bool
        ensures answer { result ≡ (number self.now == number other.now) }
        ensures same { Decides result (self.now ≡ other.now) }
    {
        self.number() == other.number()
    }
}

impl Eq for Operator {
    ghost laws = { Prim.search (comparing, rules) };
}
