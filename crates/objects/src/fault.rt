// The refusals: each has a number, which reports and answers carry, and a name.
ghost use Rattle.std.specs.Prelude.{◌≡◌, ◌==◌, Some, Decides, nat_eq};
ghost use Rattle.objects.specs.Faults.{fault_number, fault_name};
ghost use Rattle.std.specs.Cmp.Rules.{comparing};
ghost use Rattle.std.proofs.Common.{rules};
ghost use Rattle.std.specs.Cmp as Keys;
ghost use Rattle.std.specs.Ordering.{on};

use std::fmt;

#[derive(Clone, Copy, Debug)]
pub enum Fault {
    StackUnderflow = 1,
    TypeCheck = 2,
    RangeCheck = 4,
    LimitCheck = 5,
    Undefined = 6,
    UndefinedResult = 7,
    UnmatchedMark = 8,
    InvalidExit = 9,
    InvalidRestore = 10,
    DictFull = 11,
    DictStackUnderflow = 12,
    DictStackOverflow = 13,
    ExecStackOverflow = 14,
    VmError = 15,
    IoError = 16,
    StackOverflow = 17,
    SyntaxError = 18,
    UncaughtStop = 19,
    NotSetUp = 20,
    SecondSetUp = 21,
    NoOperand = 22,
}

impl Fault {
    // Kept: `fault.number()` says which number is meant, where `u8::from(fault)` would not.
    pub fn number(self) -> u8
        ensures { result ≡ fault_number self }
    {
        self as u8
    }

    pub fn name(self) -> &'static str
        ensures { result.now ≡ fault_name self }
    {
        match self {
            Fault::StackUnderflow => "stackunderflow",
            Fault::TypeCheck => "typecheck",
            Fault::RangeCheck => "rangecheck",
            Fault::LimitCheck => "limitcheck",
            Fault::Undefined => "undefined",
            Fault::UndefinedResult => "undefinedresult",
            Fault::UnmatchedMark => "unmatchedmark",
            Fault::InvalidExit => "invalidexit",
            Fault::InvalidRestore => "invalidrestore",
            Fault::DictFull => "dictfull",
            Fault::DictStackUnderflow => "dictstackunderflow",
            Fault::DictStackOverflow => "dictstackoverflow",
            Fault::ExecStackOverflow => "execstackoverflow",
            Fault::VmError => "VMerror",
            Fault::IoError => "ioerror",
            Fault::StackOverflow => "stackoverflow",
            Fault::SyntaxError => "syntaxerror",
            Fault::UncaughtStop => "uncaught stop",
            Fault::NotSetUp => "not set up",
            Fault::SecondSetUp => "second set up",
            Fault::NoOperand => "no such operand",
        }
    }
}

// Two refusals are the same exactly when their numbers are.
// Kept: `==` by hand, since a derived one has no method on which the two clauses could stand for its callers.
impl PartialEq for Fault {
    ghost eq = { on fault_number nat_eq };

    ghost laws = { Keys.partial_equiv_from_equiv (Prim.search (comparing, rules)) };

    fn eq(&self, other: &Fault) -> bool
        ensures answer { result ≡ (fault_number self.now == fault_number other.now) }
        ensures same { Decides result (self.now ≡ other.now) }
    {
        self.number() == other.number()
    }
}

impl Eq for Fault {
    ghost laws = { Prim.search (comparing, rules) };
}

impl fmt::Display for Fault {
    ghost output = { λ fault. Some (fault_name fault) };

    fn fmt<W: fmt::Write>(&self, f: &mut fmt::Formatter<W>) -> fmt::Result {
        f.write_str(self.name())
    }
}
