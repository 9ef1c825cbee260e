use super::*;
use gimple_ir::Program;
use std::alloc::Global;
use std::test::Fail;

const MINIMAL: &[u8] = b"gimple 1;\ni32 main () {\n  <bb 2>:\n    return 0;\n}\n";

const ALL_FORMS: &[u8] = b"gimple 1;
struct S {
  i32 a[4];
  struct T b;
};
global const i32 g[2] = {1, -2};
global struct S h;
global ptr q = {&g@4};
void f (i32 a, ptr p) {
  local struct S v;
  local u8 w[3];
  i32 x;
  u8 y;
  <bb 2>:
    x = a;
    x = a + -1;
    x = a << 3;
    x = a < 5;
    y = (u8) a;
    x = MEM <i32> [p@4];
    MEM <i32> [&g] = a;
    MEM <ptr> [&q@-8] = null;
    x = f.isra.0 (a, &v@4);
    f ();
    x = getint ();
    putint (18446744073709551615);
    abort ();
    goto <bb 3>;
  <bb 3>:
    if (a != 2) goto <bb 3>; else goto <bb 4>;
  <bb 4>:
    switch (a) { case 1: <bb 3>; case -2: <bb 4>; default: <bb 5>; }
  <bb 5>:
    switch (a) { default: <bb 5>; }
  <bb 6>:
    return a;
  <bb 7>:
    return;
}
";

const INDIRECT_CALL: &[u8] = b"gimple 2;
global ptr h = {&f};
i32 f (i32 n) {
  i32 x;
  <bb 2>:
    x = n + 1;
    return x;
}
i32 main () {
  ptr p;
  i32 a;
  <bb 2>:
    a = f (3);
    putint (a);
    p = MEM <ptr> [&h];
    a = *<i32 (i32)> p (3);
    putint (a);
    return 0;
}
";

fn refused(alloc: Global, text: &[u8]) -> Option<TextFault> {
    if text.len() >= 1_000_000 {
        return None;
    }
    parse(alloc, text).err()
}

fn read(alloc: Global, text: &[u8]) -> Option<Program> {
    if text.len() >= 1_000_000 {
        return None;
    }
    parse(alloc, text).ok()
}

fn at(line: u64, column: u64) -> Spot {
    Spot { line, column }
}

#[test]
fn a_text_has_one_fault(rt: HostRuntime) -> Result<(), Fail> {
    let alloc = rt.alloc();
    let early = b"gimple 1;\ni32 main () {\n  i32 x;\n  <bb 2>:\n    if (x <";
    assert!(rt; refused(alloc, early) == Some(TextFault::EarlyEnd(at(5, 12))));
    assert!(rt; refused(alloc, b"") == Some(TextFault::EarlyEnd(at(1, 1))));
    assert!(rt; refused(alloc, b"gimple 0;\n") == Some(TextFault::BadToken(at(1, 8))));
    assert!(rt; refused(alloc, b"gimple 1;\n$\n") == Some(TextFault::BadByte(at(2, 1))));
    assert!(rt;
        refused(alloc, b"gimple 18446744073709551616;") == Some(TextFault::BadToken(at(1, 8)))
    );
    assert!(rt; refused(alloc, b"gimple 2 $") == Some(TextFault::BadByte(at(1, 10))));
    assert!(rt; refused(alloc, b"gimple 3 $") == Some(TextFault::BadToken(at(1, 8))));
    assert!(rt; refused(alloc, b"gimple 1; !") == Some(TextFault::BadByte(at(1, 11))));
    let extra = b"gimple 1; i32 main() { <bb 2>: return 0; } x";
    assert!(rt; refused(alloc, extra) == Some(TextFault::BadToken(at(1, 44))));
    Ok(())
}

#[test]
fn canonical_texts_come_back(rt: HostRuntime) -> Result<(), Fail> {
    let alloc = rt.alloc();
    let all = read(alloc, ALL_FORMS).ok_or("the text is a program")?;
    assert!(rt; print(alloc, &all).ok().ok_or("memory")?.as_slice() == ALL_FORMS);
    let loose = b"gimple 01; // c\ni32 main(){<bb 02>:return -0;}";
    let minimal = read(alloc, loose).ok_or("the text is a program")?;
    assert!(rt; print(alloc, &minimal).ok().ok_or("memory")?.as_slice() == MINIMAL);
    assert!(rt; read(alloc, b"gimple 1; // $").is_some());
    Ok(())
}

#[test]
fn indirect_calls_come_back(rt: HostRuntime) -> Result<(), Fail> {
    let alloc = rt.alloc();
    let program = read(alloc, INDIRECT_CALL).ok_or("the text is a program")?;
    assert!(rt; print(alloc, &program).ok().ok_or("memory")?.as_slice() == INDIRECT_CALL);
    Ok(())
}

#[test]
fn tokens_come_one_by_one(rt: HostRuntime) {
    let start = Cursor {
        place: 0,
        spot: Spot { line: 1, column: 1 },
    };
    let text = b" // c\n x1.y=";
    let name = next_token(text, start);
    assert!(rt;
        matches!(
            name,
            Next::Token {
                from: 7,
                to: 11,
                spot: Spot { line: 2, column: 2 },
                ..
            }
        )
    );
    assert!(rt; next_token(b"\n!", start) == Next::BadByte(at(2, 1)));
    assert!(rt; next_token(b"// c", start) == Next::Stop(at(1, 5)));
    assert!(rt; number_of(b"18446744073709551615") == Some(u64::MAX));
    assert!(rt; number_of(b"18446744073709551616").is_none() && number_of(b"").is_none());
    assert!(rt; is_name(b"f.isra.0") && !is_name(b"ptr") && !is_name(b"0x") && !is_name(b""));
}
