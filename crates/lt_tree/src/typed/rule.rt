ghost use Rattle.std.specs.Prelude.{◌≡◌};
ghost use Rattle.lt_tree.specs.Typing.Rules.{number_of};
ghost use Rattle.lt_tree.specs.Typing.EntityView.{rule_of};

/// The rules that a unit can break, in the order of their numbers.
#[derive(Clone, Copy, PartialEq, Eq, Debug)]
pub enum Rule {
    /// A name isn't declared in scope.
    UndeclaredName,
    /// A name, a tag, a member or an enumerator is declared twice in one scope.
    DeclaredTwice,
    /// Specifiers name no type, or have more than one storage class.
    NoType,
    /// An object, a member, an element or a parameter has an incomplete type or is void.
    IncompleteType,
    /// An object, a member, a parameter of a definition or an expression has a floating type.
    FloatingType,
    /// The length of an array isn't known or out of bounds, or a type has too many cells.
    BadLength,
    /// A member is a bit-field.
    BitField,
    /// A function, or a pointer to one, stands for a value.
    FunctionAsValue,
    /// A volatile lvalue is read or written.
    VolatileAccess,
    /// A definition has a parameter without a name or `...`, or takes or gives other than integers and pointers.
    BadDefinition,
    /// A function has two bodies, or its declarations disagree.
    FunctionDisagrees,
    /// An operand isn't an integer.
    OperandNotInteger,
    /// The operands of `+` and `-`, or of what adds or subtracts, don't fit.
    BadSum,
    /// The operands of a relation don't fit.
    BadComparison,
    /// What is tested isn't a scalar.
    NotScalar,
    /// The last operands of `?:` don't fit.
    BadChoice,
    /// A value is assigned, passed, returned or taken as initialiser where it doesn't fit.
    BadAssignment,
    /// What is changed is no lvalue that may be changed.
    NotModifiable,
    /// The operand of `&` or `*` doesn't fit.
    BadAddress,
    /// A member isn't in the struct, or there is no struct.
    NoMember,
    /// What is called is no function, or has another number of parameters.
    BadCall,
    /// A cast is between types that don't fit.
    BadCast,
    /// The operand of `sizeof` has no size.
    NoSize,
    /// A constant fits no type of its list.
    ConstantTooLarge,
    /// A `switch`, a case or an enumerator's value doesn't fit.
    BadCase,
    /// `break` or `continue` outside of what it leaves.
    StrayJump,
    /// `return` with a value in a void function, or without one in another.
    BadReturn,
    /// An initialiser doesn't fit its object.
    BadInitialiser,
    /// A called function has no body and can't be run without.
    NoBody,
    /// A mark isn't as marks have to be.
    BadMark,
}

impl Rule {
    /// The number of the rule, from 1 to 30.
    #[tactic(auto, unfolding(crate::specs::Typing::Rules::number_of))]
    pub fn number(self) -> u8
        ensures { result ≡ number_of (rule_of self) }
    {
        match self {
            Rule::UndeclaredName => 1,
            Rule::DeclaredTwice => 2,
            Rule::NoType => 3,
            Rule::IncompleteType => 4,
            Rule::FloatingType => 5,
            Rule::BadLength => 6,
            Rule::BitField => 7,
            Rule::FunctionAsValue => 8,
            Rule::VolatileAccess => 9,
            Rule::BadDefinition => 10,
            Rule::FunctionDisagrees => 11,
            Rule::OperandNotInteger => 12,
            Rule::BadSum => 13,
            Rule::BadComparison => 14,
            Rule::NotScalar => 15,
            Rule::BadChoice => 16,
            Rule::BadAssignment => 17,
            Rule::NotModifiable => 18,
            Rule::BadAddress => 19,
            Rule::NoMember => 20,
            Rule::BadCall => 21,
            Rule::BadCast => 22,
            Rule::NoSize => 23,
            Rule::ConstantTooLarge => 24,
            Rule::BadCase => 25,
            Rule::StrayJump => 26,
            Rule::BadReturn => 27,
            Rule::BadInitialiser => 28,
            Rule::NoBody => 29,
            Rule::BadMark => 30,
        }
    }
}
