//! Where expressions begin, and where the faults of references stand.
ghost use Rattle.std.specs.Prelude.{◌≡◌};
ghost use Rattle.pli_base.specs.views.SyntaxView.{expression_view, joined_view, reference_view};
ghost use Rattle.pli_type_rules.specs.Typing.{after_arrows, first_token, own_token};

use pli_base::syntax::{Expression, JoinedPart, Joining, Reference};

/// The first token of an expression, counted from 0: a parenthesis, a sign, a constant or a name. It calls itself as
/// often as infix operators stand in a row.
pub fn first_token(expression: &Expression) -> u32
    ensures { result ≡ first_token (expression_view expression.now) }
{
    match expression {
        Expression::Reference(reference) => reference.first.name.at,
        Expression::Constant { at, .. }
        | Expression::Parenthesized { at, .. }
        | Expression::Prefix { at, .. } => *at,
        Expression::Infix { left, .. } => first_token(left),
    }
}

/// The token of the last name after an arrow among the parts, or the token `at` where none stands there.
fn after_arrows(at: u32, joined: &[JoinedPart]) -> u32
    ensures { result ≡ after_arrows at (joined_view joined.now) }
{
    let mut last = at;
    for part in joined {
        match part.joining {
            Joining::Member => {}
            Joining::Located => last = part.part.name.at,
        }
    }
    last
}

/// The token at which faults of a reference itself stand, counted from 0: its first name after its last arrow (own).
#[tactic(auto, using(pli_base::specs::laws::SyntaxLaws::reference_out))]
pub fn own_token(reference: &Reference) -> u32
    ensures { result ≡ own_token (reference_view reference.now) }
{
    after_arrows(reference.first.name.at, reference.joined.as_slice())
}
