//! Decks and modules of texts.
ghost use Rattle.std.specs.Prelude.{◌≡◌, ◌≤◌, true, length, map};
ghost use Rattle.pli_link.specs.Units.{AreWritten};
ghost use Rattle.pli_link.specs.views.UnitView.{compiled_view};

use crate::tests::bytes::{SMALLEST, is_exact};
use crate::tests::outcome::{Kind, Outcome, outcome_of};
use pli_base::{Line, Name, TokenText};
use pli_code::Version;
use pli_deck::{Compiled, Compiler};
use pli_deck_write::write_deck;
use pli_lex::lex;
use pli_link::{NamedUnit, link};
use std::alloc::Global;
use std::process::Abort;
use std::test::*;

/// The text of the smallest deck.
static SMALLEST_TEXT: &str = "M: PROC OPTIONS(MAIN); END;";

/// Programs, one a line, with `/` between their units.
static PROGRAMS: &str = "\
M: PROC OPTIONS(MAIN); END;
M: PROC OPTIONS(MAIN); DCL T(0:1, 2) CHAR(2) INIT('A', 'B', 'C', 'D'), 1 S STATIC, 2 A FIXED BIN(15) INIT(-1), 2 B \
BIT(9) INIT('110000001'B), 2 V CHAR(8) VAR INIT('AB'), I FIXED BIN(31); DO I = 1 TO 2; T(0, I) = V || T(1, I); END; \
GOTO L; L: PUT LIST(T(0, 1), A, ^B); END;
M: PROC OPTIONS(MAIN); DCL N FIXED BIN(15); BEGIN; DCL N FIXED BIN(31) INIT(5); CALL P((N), 'A'); END; P: PROC(X, \
C); DCL X FIXED BIN(31), C CHAR(3); IF X > 0 THEN CALL P(X - 1, C); ELSE PUT SKIP LIST(F(C, X)); END P; F: PROC(C, \
X) RETURNS(CHAR(6) VAR); DCL C CHAR(3), X FIXED BIN(31); RETURN(SUBSTR(C || 'XYZ', X + 1, 2)); END F; END M;
M: PROC OPTIONS(MAIN); DCL X(2) FIXED BIN(31) STATIC EXTERNAL INIT(3, 4), F ENTRY(FIXED BIN(31)) RETURNS(CHAR(3)); \
PUT LIST(F(X(1)), F(X(2))); END; / F: PROC(N) RETURNS(CHAR(3)); DCL N FIXED BIN(31), X(2) FIXED BIN(31) STATIC \
EXTERNAL INIT(3, 4), G ENTRY; CALL G; RETURN('F'); END; / G: PROC; DCL Y BIT(12) EXTERNAL; Y = '1'B; END;
M: PROC OPTIONS(MAIN); DCL X FIXED BIN(63) INIT(-9223372036854775807), 1 S(2) STATIC, 2 A FIXED BIN(15), 2 B FIXED \
BIN(40) INIT(1099511627775), F ENTRY(FIXED BIN(63)) RETURNS(FIXED BIN(32)); PUT LIST(F(X), DIVIDE(S(2).B, 3, 63), \
9223372036854775807); END; / F: PROC(N) RETURNS(FIXED BIN(32)); DCL N FIXED BIN(63); RETURN(MOD(N, 4294967296)); END;
M: PROC OPTIONS(MAIN); DCL V CHAR(5), A(2:4) BIT(3), T(2, 3) CHAR(4) VAR, Q ENTRY(CHAR(*), (*) BIT(*), (2, 3) \
CHAR(*) VAR); CALL Q('AB', A, T); CALL Q(V, A, T); END; / Q: PROC(P, A, T); DCL P CHAR(*), A(*) BIT(*), T(2, 3) \
CHAR(*) VAR; P = 'XY'; A(2) = '1'B; T(2, HBOUND(T, 2)) = P; DO P = 'A' REPEAT P || 'B' WHILE(LBOUND(A, 1) = 1); END; \
CALL R(A); R: PROC(B); DCL B(*) BIT(*); PUT LIST(B(HBOUND(B, 1))); END R; END Q;";

/// The token texts of a line.
fn tokens_of(rt: &impl Abort, alloc: Global, text: &str) -> Vec<TokenText>
    ensures { length result.items ≤ 200000 }
{
    let line = Line::new(alloc, text.as_bytes()).expect(rt, "memory");
    let mut lines = Vec::new(alloc);
    lines.push(line).expect(rt, "memory");
    assert!(rt; lines.len() <= 9999);
    let tokens = lex(alloc, &lines).ok().expect(rt, "tokens");
    let mut texts = Vec::new(alloc);
    for token in tokens {
        texts.push(token.text).expect(rt, "memory");
    }
    assert!(rt; texts.len() <= 200_000);
    texts
}

/// The compiled units of a program.
fn compiled(rt: &impl Abort, alloc: Global, program: &str) -> Vec<Compiled> {
    let mut compiler = Compiler::new(alloc);
    let mut units = Vec::new(alloc);
    for text in program.split('/') {
        let tokens = tokens_of(rt, alloc, text);
        let unit = compiler.compile(&tokens).expect(rt, "memory");
        units.push(unit).expect(rt, "memory");
    }
    units
}

/// The bytes of the deck of a compiled unit.
fn deck_of(rt: &impl Abort, alloc: Global, unit: &Compiled) -> Vec<u8> {
    let deck = unit.deck().expect(rt, "a deck");
    write_deck(alloc, deck).expect(rt, "memory")
}

/// A compiled unit as that of the member U10, or of one of the members after it.
fn named<'a>(rt: &impl Abort, alloc: Global, place: usize, unit: &'a Compiled) -> NamedUnit<'a> {
    let name = format!(in alloc; "U{}", place.saturating_add(10)).expect(rt, "memory");
    NamedUnit {
        unit: Name::read(name.as_bytes()).expect(rt, "a name"),
        deck: unit.deck().expect(rt, "a deck"),
    }
}

/// Whether all decks have the version in which decks are written.
fn are_written(units: &[NamedUnit<'_>]) -> bool
    ensures { result ≡ true → AreWritten (map compiled_view units.now) }
{
    for unit in units {
        match unit.deck.version {
            Version::First | Version::Second => return false,
            Version::Third => {}
        }
    }
    true
}

/// The bytes of the module of compiled units.
fn module_of(rt: &impl Abort, alloc: Global, compiled: &[Compiled]) -> Vec<u8> {
    let mut units = Vec::new(alloc);
    for unit in compiled {
        let unit = named(rt, alloc, units.len(), unit);
        if units.push(unit).is_err() {
            panic!(rt; "memory");
        }
    }
    assert!(rt; are_written(&units));
    let module = link(alloc, &units).ok().expect(rt, "a module");
    module.bytes(alloc).expect(rt, "memory")
}

/// The bytes of the module of a program.
fn linked(rt: &impl Abort, alloc: Global, program: &str) -> Vec<u8> {
    module_of(rt, alloc, &compiled(rt, alloc, program))
}

#[test]
fn programs(rt: HostRuntime) {
    let alloc = rt.alloc();
    for program in PROGRAMS.lines() {
        assert!(rt;
            is_exact(&rt, alloc, &linked(&rt, alloc, program)),
            "{program}"
        );
    }
}

/// The texts of 60 units, of which each calls the next and the last is the main one, with `/` between them.
fn many(rt: &impl Abort, alloc: Global) -> String {
    let mut text = String::new(alloc);
    for number in 0..59u32 {
        let next = number.saturating_add(1);
        let unit = format!(in alloc; "F{number}: PROC; DCL F{next} ENTRY; CALL F{next}; END; / ");
        text.push_str(&unit.expect(rt, "memory"))
            .expect(rt, "memory");
    }
    text.push_str("F59: PROC OPTIONS(MAIN); DCL F0 ENTRY; CALL F0; END;")
        .expect(rt, "memory");
    text
}

/// Whether the module of 60 such units is read and written as the same bytes.
fn is_same(rt: &impl Abort, alloc: Global, text: &str) -> bool {
    let units = compiled(rt, alloc, text);
    let module = module_of(rt, alloc, &units);
    units.len() == 60 && outcome_of(alloc, Kind::Module, &module) == Outcome::Same
}

#[test]
fn many_units(rt: HostRuntime) {
    assert!(rt; is_same(&rt, rt.alloc(), &many(&rt, rt.alloc())));
}

/// Whether the smallest deck is that of its text, by a copy.
fn is_smallest(rt: &impl Abort, alloc: Global, compiler: &mut Compiler) -> bool {
    let tokens = tokens_of(rt, alloc, SMALLEST_TEXT);
    let unit = compiler.compile(&tokens).expect(rt, "memory");
    let copy = unit.copy(alloc).expect(rt, "memory");
    deck_of(rt, alloc, &copy).as_slice() == SMALLEST.as_slice()
}

/// Whether no text has one fault and no deck.
fn is_faulty(rt: &impl Abort, compiler: &mut Compiler) -> bool {
    let faulty = compiler.compile(&[]).expect(rt, "memory");
    faulty.deck().is_none() && faulty.faults().len() == 1
}

#[test]
fn compilations(rt: HostRuntime) {
    let mut compiler = Compiler::new(rt.alloc());
    let is_right = is_smallest(&rt, rt.alloc(), &mut compiler) && is_faulty(&rt, &mut compiler);
    let count = compiler.count();
    drop(compiler);
    assert!(rt; is_right && count == 2);
}
