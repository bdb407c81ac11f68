ghost use Rattle.std.specs.Prelude.{◌≡◌, ◌||◌, List};
ghost use Rattle.lt_tree.specs.Typing.Types.{CType};
ghost use Rattle.lt_tree.specs.Typing.StatementTyping as typing;
ghost use Rattle.lt_unit.specs.UnitViews.{around_of};

use lt_tree::typed::TypeId;

/// What stands around a statement: the function's type of value, loops and switches.
#[derive(Clone, Copy, PartialEq, Eq, Debug)]
pub struct Around {
    pub returned: TypeId,
    pub in_loop: bool,
    pub in_switch: bool,
}

/// The same in a loop.
pub fn in_a_loop(around: Around) -> Around
    ensures { (types : List CType) → around_of types result ≡ typing.in_a_loop (around_of types around) }
{
    Around {
        returned: around.returned,
        in_loop: true,
        in_switch: around.in_switch,
    }
}

/// The same in a switch.
pub fn in_a_switch(around: Around) -> Around
    ensures { (types : List CType) → around_of types result ≡ typing.in_a_switch (around_of types around) }
{
    Around {
        returned: around.returned,
        in_loop: around.in_loop,
        in_switch: true,
    }
}

/// Whether a `break` may stand there.
pub fn can_break(around: Around) -> bool
    ensures { result ≡ (around.in_loop || around.in_switch) }
{
    around.in_loop || around.in_switch
}
