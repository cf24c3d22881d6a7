//! For what references and expressions stand.
ghost use Rattle.std.specs.Prelude.{◌≡◌, map, get_or};
ghost use Rattle.pli_type_rules.specs.References.{wants_scalar, AsArgument};
ghost use Rattle.pli_type_operands.specs.views.TypingView.{role_view};

/// For what a reference or an expression stands.
#[derive(Clone, Copy, PartialEq, Eq)]
pub enum Role {
    /// For one value.
    Value,
    /// For an argument, or for what is assigned to an aggregate, which may be an aggregate itself.
    Argument,
    /// For the target of an assignment, which may be an aggregate.
    Target,
    /// For a locator in front of `->`, which is one value of a variable.
    Locator,
}

impl Role {
    /// Whether no aggregate may stand here.
    pub fn wants_scalar(self) -> bool
        ensures { result ≡ wants_scalar (role_view self) }
    {
        matches!(self, Role::Value | Role::Locator)
    }
}

/// The role of the argument at a place, counted from 0: one without a role may be a whole aggregate.
pub fn role_at(roles: &[Role], place: usize) -> Role
    ensures { role_view result ≡ get_or (map role_view roles.now) place AsArgument }
{
    match roles.get(place) {
        Some(role) => *role,
        None => Role::Argument,
    }
}
