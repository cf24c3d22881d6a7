//! Copies of statements and units.
ghost use Rattle.std.specs.Prelude.{◌≡◌, map, option_map, IfOk};
ghost use Rattle.pli_base.specs.views.SyntaxView.{expression_view, arguments_view, reference_view};
ghost use Rattle.pli_base.specs.laws.StatementLaws.{boxed_view};
ghost use Rattle.pli_base.specs.Statements as tree;
ghost use Rattle.pli_base.specs.views.StatementView.{option_view, range_view, control_view, allocation_view, body_view};
ghost use Rattle.pli_base.specs.views.StatementView.{statement_view, statements_view, unit_view};

use crate::copied::{Copied, copied_list, copied_option};
use crate::expression::copied_expressions;
use pli_base::statement::{
    Allocation, Body, Condition, Control, Procedure, ProcedureOption, Range, Statement,
};
use pli_base::syntax::{Expression, Identifier, Reference};
use std::alloc::{AllocError, Global};

impl Copied for ProcedureOption {
    ghost View = { tree.ProcedureOption };

    ghost view = { option_view };

    fn copy(&self, alloc: Global) -> Result<ProcedureOption, AllocError> {
        match self {
            ProcedureOption::Main => Ok(ProcedureOption::Main),
            ProcedureOption::Returns(attributes) => {
                let attributes = copied_list(alloc, attributes.as_slice())?;
                Ok(ProcedureOption::Returns(attributes))
            }
            ProcedureOption::Recursive => Ok(ProcedureOption::Recursive),
        }
    }
}

/// Copies an expression, and another that may be absent.
fn copied_pair(
    alloc: Global,
    expression: &Expression,
    option: &Option<Expression>,
) -> Result<(Expression, Option<Expression>), AllocError>
    ensures one { IfOk result (λ pair. expression_view pair.0 ≡ expression_view expression.now) }
    ensures other { IfOk result (λ pair. option_map expression_view pair.1 ≡ option_map expression_view option.now) }
{
    let copied = expression.copy(alloc)?;
    match copied_option(alloc, option) {
        Ok(other) => Ok((copied, other)),
        Err(error) => {
            drop(copied);
            Err(error)
        }
    }
}

impl Copied for Range {
    ghost View = { tree.Range };

    ghost view = { range_view };

    fn copy(&self, alloc: Global) -> Result<Range, AllocError> {
        match self {
            Range::To { to, by } => {
                let (to, by) = copied_pair(alloc, to, by)?;
                Ok(Range::To { to, by })
            }
            Range::By { by, to } => {
                let (by, to) = copied_pair(alloc, by, to)?;
                Ok(Range::By { by, to })
            }
            Range::Repeat(next) => Ok(Range::Repeat(next.copy(alloc)?)),
        }
    }
}

impl Copied for Control {
    ghost View = { tree.Control };

    ghost view = { control_view };

    fn copy(&self, alloc: Global) -> Result<Control, AllocError> {
        match self {
            Control::While(condition) => Ok(Control::While(condition.copy(alloc)?)),
            Control::Iterate {
                variable,
                equals,
                first,
                range,
                condition,
            } => {
                let (first, condition) = copied_pair(alloc, first, condition)?;
                let variable = match variable.copy(alloc) {
                    Ok(variable) => variable,
                    Err(error) => {
                        drop(first);
                        drop(condition);
                        return Err(error);
                    }
                };
                match copied_option(alloc, range) {
                    Ok(range) => Ok(Control::Iterate {
                        variable,
                        equals: *equals,
                        first,
                        range,
                        condition,
                    }),
                    Err(error) => {
                        drop(variable);
                        drop(first);
                        drop(condition);
                        Err(error)
                    }
                }
            }
        }
    }
}

impl Copied for Allocation {
    ghost View = { tree.Allocation };

    ghost view = { allocation_view };

    fn copy(&self, alloc: Global) -> Result<Allocation, AllocError> {
        Ok(Allocation {
            name: self.name,
            area: copied_option(alloc, &self.area)?,
            target: copied_option(alloc, &self.target)?,
        })
    }
}

impl Copied for Statement {
    ghost View = { tree.Statement };

    ghost view = { statement_view };

    fn copy(&self, alloc: Global) -> Result<Statement, AllocError> {
        copied_statement(alloc, self)
    }
}

impl Copied for Body {
    ghost View = { tree.Body };

    ghost view = { body_view };

    fn copy(&self, alloc: Global) -> Result<Body, AllocError> {
        copied_body(alloc, self)
    }
}

impl Copied for Procedure {
    ghost View = { tree.ExternalProcedure };

    ghost view = { unit_view };

    fn copy(&self, alloc: Global) -> Result<Procedure, AllocError> {
        copied_procedure(alloc, self)
    }
}

/// Copies a CALL statement.
fn copied_call(
    alloc: Global,
    name: Identifier,
    arguments: &Option<Vec<Expression>>,
) -> Result<Body, AllocError>
    ensures { IfOk result (λ copied. body_view copied ≡ tree.Call name (arguments_view arguments.now)) }
{
    let arguments = match arguments {
        None => None,
        Some(list) => Some(copied_expressions(alloc, list.as_slice())?),
    };
    Ok(Body::Call { name, arguments })
}

/// Copies a PUT statement.
fn copied_output(alloc: Global, skip: bool, items: &[Expression]) -> Result<Body, AllocError>
    ensures { IfOk result (λ copied. body_view copied ≡ tree.Put skip (map expression_view items.now)) }
{
    let items = copied_list(alloc, items)?;
    Ok(Body::Put { skip, items })
}

/// Copies an assignment.
fn copied_assignment(
    alloc: Global,
    target: &Reference,
    equals: u32,
    value: &Expression,
) -> Result<Body, AllocError>
    ensures { IfOk result (λ copied. body_view copied ≡ tree.Assign (reference_view target.now) equals
        (expression_view value.now)) }
{
    Ok(Body::Assign {
        target: target.copy(alloc)?,
        equals,
        value: value.copy(alloc)?,
    })
}

/// Copies a statement.
#[cycle(copied)]
fn copied_statement(alloc: Global, statement: &Statement) -> Result<Statement, AllocError>
    ensures { IfOk result (λ copied. statement_view copied ≡ statement_view statement.now) }
{
    let body = copied_body(alloc, &statement.body)?;
    Ok(Statement {
        number: statement.number,
        label: statement.label,
        at: statement.at,
        body,
    })
}

/// Copies statements.
#[cycle(copied)]
fn copied_statements(alloc: Global, statements: &[Statement]) -> Result<Vec<Statement>, AllocError>
    ensures { IfOk result (λ copied. statements_view copied.items ≡ statements_view statements.now) }
{
    let mut copied = Vec::new(alloc);
    for statement in statements {
        copied.push(copied_statement(alloc, statement)?)?;
    }
    Ok(copied)
}

/// Copies a procedure.
#[cycle(copied)]
fn copied_procedure(alloc: Global, procedure: &Procedure) -> Result<Procedure, AllocError>
    ensures { IfOk result (λ copied. unit_view copied ≡ unit_view procedure.now) }
{
    let parameters = Vec::from_slice(alloc, procedure.parameters.as_slice())?;
    let options = copied_list(alloc, procedure.options.as_slice())?;
    let statements = copied_statements(alloc, procedure.statements.as_slice())?;
    Ok(Procedure {
        name: procedure.name,
        number: procedure.number,
        parameters,
        options,
        statements,
        end: procedure.end,
    })
}

/// Copies what stands after ELSE, if it is there.
#[cycle(copied)]
fn copied_alternative(
    alloc: Global,
    alternative: &Option<Box<Statement>>,
) -> Result<Option<Box<Statement>>, AllocError>
    ensures { IfOk result (λ copied. boxed_view copied ≡ boxed_view alternative.now) }
{
    match alternative {
        None => Ok(None),
        Some(statement) => {
            let statement = copied_statement(alloc, statement)?;
            Ok(Some(Box::new(alloc, statement)?))
        }
    }
}

/// Copies a block.
#[cycle(copied)]
fn copied_block(alloc: Global, statements: &[Statement], end: u32) -> Result<Body, AllocError>
    ensures { IfOk result (λ copied. body_view copied ≡ tree.Begin (statements_view statements.now) end) }
{
    let statements = copied_statements(alloc, statements)?;
    Ok(Body::Begin { statements, end })
}

/// Copies a group.
#[cycle(copied)]
fn copied_group(
    alloc: Global,
    control: &Option<Control>,
    statements: &[Statement],
    end: u32,
) -> Result<Body, AllocError>
    ensures { IfOk result (λ copied. body_view copied ≡ tree.Do (option_map control_view control.now)
        (statements_view statements.now) end) }
{
    let statements = copied_statements(alloc, statements)?;
    let control = copied_option(alloc, control)?;
    Ok(Body::Do {
        control,
        statements,
        end,
    })
}

/// Copies an ON statement.
#[cycle(copied)]
fn copied_on_unit(alloc: Global, condition: Condition, unit: &Statement) -> Result<Body, AllocError>
    ensures { IfOk result (λ copied. body_view copied ≡ tree.On condition (statement_view unit.now)) }
{
    let unit = copied_statement(alloc, unit)?;
    Ok(Body::On {
        condition,
        unit: Box::new(alloc, unit)?,
    })
}

/// Copies what a statement says.
#[cycle(copied)]
fn copied_body(alloc: Global, body: &Body) -> Result<Body, AllocError>
    ensures { IfOk result (λ copied. body_view copied ≡ body_view body.now) }
{
    match body {
        Body::Null => Ok(Body::Null),
        Body::Stop => Ok(Body::Stop),
        Body::Revert(condition) => Ok(Body::Revert(*condition)),
        Body::Signal(condition) => Ok(Body::Signal(*condition)),
        Body::Goto(label) => Ok(Body::Goto(*label)),
        Body::Assign {
            target,
            equals,
            value,
        } => copied_assignment(alloc, target, *equals, value),
        Body::Call { name, arguments } => copied_call(alloc, *name, arguments),
        Body::Return(value) => Ok(Body::Return(copied_option(alloc, value)?)),
        Body::Put { skip, items } => copied_output(alloc, *skip, items.as_slice()),
        Body::Declare(items) => Ok(Body::Declare(copied_list(alloc, items.as_slice())?)),
        Body::Free(places) => Ok(Body::Free(copied_list(alloc, places.as_slice())?)),
        Body::Allocate(list) => Ok(Body::Allocate(copied_list(alloc, list.as_slice())?)),
        Body::Procedure(procedure) => Ok(Body::Procedure(copied_procedure(alloc, procedure)?)),
        Body::Begin { statements, end } => copied_block(alloc, statements.as_slice(), *end),
        Body::Do {
            control,
            statements,
            end,
        } => copied_group(alloc, control, statements.as_slice(), *end),
        Body::If {
            condition,
            consequence,
            alternative,
        } => Ok(Body::If {
            // The condition comes last, so that only boxes are dropped where a copy fails.
            consequence: Box::new(alloc, copied_statement(alloc, consequence)?)?,
            alternative: copied_alternative(alloc, alternative)?,
            condition: condition.copy(alloc)?,
        }),
        Body::On { condition, unit } => copied_on_unit(alloc, *condition, unit),
    }
}
