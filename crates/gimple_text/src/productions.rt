//! Each production of the grammar, with texts that are read and printed, and texts with a bad token.

use super::*;
use std::alloc::Global;
use std::test::Fail;

const HEADER: &str = "gimple 1; ";

const BODY: &str = "gimple 1; void f () { <bb 2>: ";

const SECOND_BODY: &str = "gimple 2; void f () { <bb 2>: ";

// Declarations behind the header, and their printed form.
const DECLARATIONS: &[(&str, &str)] = &[
    // program
    ("", ""),
    (
        "struct S{i8 a;};global i8 g;void f(){}",
        "struct S {\n  i8 a;\n};\nglobal i8 g;\nvoid f () {\n}\n",
    ),
    // struct
    ("struct S{};", "struct S {\n};\n"),
    (
        "struct S{i16 a;u16 b;};struct T{ptr p;};",
        "struct S {\n  i16 a;\n  u16 b;\n};\nstruct T {\n  ptr p;\n};\n",
    ),
    // decl and shape
    (
        "struct S{struct T b[03];u8 c[0];};",
        "struct S {\n  struct T b[3];\n  u8 c[0];\n};\n",
    ),
    // global
    ("global struct S g;", "global struct S g;\n"),
    (
        "global const i64 g[2]={1,-2};",
        "global const i64 g[2] = {1, -2};\n",
    ),
    // item, signed and address
    (
        "global ptr q[5]={null,&g,&g@0,&g@-8,&g@4};",
        "global ptr q[5] = {null, &g, &g, &g@-8, &g@4};\n",
    ),
    (
        "global u64 g[3]={18446744073709551615,- 0,- 18446744073709551615};",
        "global u64 g[3] = {18446744073709551615, 0, -18446744073709551615};\n",
    ),
    // function
    ("u32 _f.0(){}", "u32 _f.0 () {\n}\n"),
    (
        "ptr f(i8 a,ptr b){local struct S v;local i8 w[2];u64 x;i32 y;}",
        "ptr f (i8 a, ptr b) {\n  local struct S v;\n  local i8 w[2];\n  u64 x;\n  i32 y;\n}\n",
    ),
    // block and target
    (
        "void f(){<bb 0>:return;<bb 007>:goto<bb 0>;}",
        "void f () {\n  <bb 0>:\n    return;\n  <bb 7>:\n    goto <bb 0>;\n}\n",
    ),
];

// Statements behind a label, and their printed form.
const STATEMENTS: &[(&str, &str)] = &[
    // rhs
    ("x=y;", "x = y;"),
    ("x=-07;", "x = -7;"),
    ("x=null;", "x = null;"),
    ("x=&g@-0;", "x = &g;"),
    ("x=(u8)y;", "x = (u8) y;"),
    ("x=(i64)-1;", "x = (i64) -1;"),
    ("x=getint();", "x = getint ();"),
    // op
    ("x=a+b;", "x = a + b;"),
    ("x=a--1;", "x = a - -1;"),
    ("x=1-1;", "x = 1 - 1;"),
    ("x=a*b;", "x = a * b;"),
    ("x=a/b;", "x = a / b;"),
    ("x=a%b;", "x = a % b;"),
    ("x=a&&b;", "x = a & &b;"),
    ("x=a|b;", "x = a | b;"),
    ("x=a^b;", "x = a ^ b;"),
    ("x=a<<b;", "x = a << b;"),
    ("x=a>>b;", "x = a >> b;"),
    // cmp
    ("x=a==b;", "x = a == b;"),
    ("x=a!=b;", "x = a != b;"),
    ("x=a<b;", "x = a < b;"),
    ("x=a<=b;", "x = a <= b;"),
    ("x=a>b;", "x = a > b;"),
    ("x=a>=b;", "x = a >= b;"),
    ("x=null==&g;", "x = null == &g;"),
    // args
    ("f();", "f ();"),
    ("f(a,-1,null,&g@4);", "f (a, -1, null, &g@4);"),
    ("x=f();", "x = f ();"),
    ("x=f(a);", "x = f (a);"),
    // mem
    ("x=MEM<i32>[p];", "x = MEM <i32> [p];"),
    ("x=MEM<ptr>[&g@-4];", "x = MEM <ptr> [&g@-4];"),
    ("MEM<u8>[p@00]=-1;", "MEM <u8> [p] = -1;"),
    ("MEM<ptr>[&g@8]=&h;", "MEM <ptr> [&g@8] = &h;"),
    // putint and abort
    ("putint(a);", "putint (a);"),
    ("putint(-5);", "putint (-5);"),
    ("abort();", "abort ();"),
];

// Indirect calls behind a label of a text of profile 2, and their printed form.
const INDIRECT_CALLS: &[(&str, &str)] = &[
    ("*<void()>p();", "*<void ()> p ();"),
    (
        "x=*<i32(i32,ptr)>p(a,-1);",
        "x = *<i32 (i32, ptr)> p (a, -1);",
    ),
];

// Ends of a block, and their printed form.
const ENDS: &[(&str, &str)] = &[
    ("goto<bb 2>;", "goto <bb 2>;"),
    ("return;", "return;"),
    ("return a;", "return a;"),
    ("return&g@1;", "return &g@1;"),
    (
        "if(a<b)goto<bb 2>;else goto<bb 3>;",
        "if (a < b) goto <bb 2>; else goto <bb 3>;",
    ),
    (
        "switch(1){default:<bb 2>;}",
        "switch (1) { default: <bb 2>; }",
    ),
    (
        "switch(a){case-1:<bb 2>;case 1:<bb 2>;default:<bb 3>;}",
        "switch (a) { case -1: <bb 2>; case 1: <bb 2>; default: <bb 3>; }",
    ),
];

// What stands behind the header and begins a program, and what follows with a bad token at its head.
const BAD_DECLARATIONS: &[(&str, &str)] = &[
    // program
    ("", ";"),
    ("", "f () {}"),
    ("global i8 g; ", "struct S {};"),
    ("void f () {} ", "global i8 g;"),
    // struct
    ("struct ", "i32 {};"),
    ("struct S ", ";"),
    ("struct S { i8 a", "}"),
    ("struct S {} ", "struct"),
    // decl and shape
    ("struct S { ", "void a;"),
    ("struct S { ", "a;"),
    ("struct S { i8 ", "1;"),
    ("struct S { i8 a[", "-1];"),
    ("struct S { i8 a[", "];"),
    ("struct S { i8 a[1]", "[2];"),
    ("struct S { struct ", "struct"),
    // global
    ("global ", "g;"),
    ("global const ", "const"),
    ("global i8 g = ", "1;"),
    ("global i8 g = {1}", "}"),
    ("global i8 g = {1} ", "global"),
    // item
    ("global i8 g = {", "}"),
    ("global i8 g = {", "x}"),
    ("global i8 g = {1,", "}"),
    ("global i8 g = {null", "@1}"),
    // signed
    ("global i8 g = {-", "-1}"),
    ("global i8 g = {-", "x}"),
    ("global i8 g = {1", "x}"),
    ("global i8 g = {", "18446744073709551616}"),
    (
        "global i8 g = {-",
        "99999999999999999999999999999999999999999}",
    ),
    // address
    ("global ptr g = {&", "1}"),
    ("global ptr g = {&", "&g}"),
    ("global ptr g = {&g@", "g}"),
    ("global ptr g = {&g@1", "@1}"),
    // function
    ("struct S ", "f () {}"),
    ("void ", "if () {}"),
    ("void f ", "{}"),
    ("void f (", "struct"),
    ("void f (", ", i8 a"),
    ("void f (i8", ")"),
    ("void f (i8 a,", ")"),
    ("void f ()", ";"),
    ("void f () { i8 x; ", "local i8 y;"),
    ("void f () { i8 x", "[2];"),
    ("void f () { ", "void x;"),
    ("void f () { ", "return;"),
    ("void f () {} ", "}"),
    // block and target
    ("void f () { ", "bb 2:"),
    ("void f () { <", "bb2>:"),
    ("void f () { <bb ", "-1>:"),
    ("void f () { <bb 2", ":"),
    ("void f () { <bb 2> ", "return;"),
    ("void f () { <bb 2> : ", "}"),
    ("void f () { <bb 2> : return; ", "return;"),
    ("void f () { <bb 2> : return; ", "i8 x;"),
];

// What stands behind a label and begins a program, and what follows with a bad token at its head.
const BAD_STATEMENTS: &[(&str, &str)] = &[
    // stmt
    ("x", ";"),
    ("x ", "== a;"),
    ("", "1 = x;"),
    ("", "; x = y;"),
    ("x = y", "}"),
    ("x.y ", "i8"),
    // rhs
    ("x = ", ";"),
    ("x = a ", "b;"),
    ("x = -", "a;"),
    ("x = (", "void) a;"),
    ("x = (", "a);"),
    ("x = (i8)", ";"),
    ("x = (i8) a ", "+ b;"),
    ("x = getint", ";"),
    ("x = getint (", "1);"),
    ("x = ", "putint (a);"),
    ("x = ", "abort ();"),
    // indirect, of profile 2 alone
    ("", "*<void ()> p ();"),
    ("x = ", "*<i32 ()> p ();"),
    // op and cmp
    ("x = a + b ", "+ c;"),
    ("x = a < b ", "== c;"),
    ("x = a ", "= b;"),
    ("x = a +", "+ b;"),
    ("x = a << ", "< b;"),
    ("x = a - -", "x;"),
    // args
    ("f (", ", a);"),
    ("f (a,", ");"),
    ("f (a ", "b);"),
    ("f (a)", "+ 1;"),
    ("x = f (a) ", "+ 1;"),
    ("f (a ", "+ b);"),
    // mem
    ("x = MEM ", "[p];"),
    ("x = MEM ", "<< i8"),
    ("x = MEM <", "struct S> [p];"),
    ("x = MEM <i8 ", ">> [p];"),
    ("x = MEM <i8> ", "p;"),
    ("x = MEM <i8> [", "1];"),
    ("x = MEM <i8> [", "null];"),
    ("x = MEM <i8> [p@", "q];"),
    ("x = MEM <i8> [p] ", "+ 1;"),
    ("MEM <i8> [p] ", ";"),
    ("MEM <i8> [p] = ", "MEM <i8> [p];"),
    ("MEM <i8> [p] = a ", "+ b;"),
    // putint and abort
    ("putint ", "a;"),
    ("putint (", ");"),
    ("putint (a", ", b);"),
    ("abort ", ";"),
    ("abort (", "a);"),
    // end
    ("goto ", "2;"),
    ("goto <bb ", "x>;"),
    ("goto <bb 2>", "}"),
    ("return a ", "+ b;"),
    ("return ", "return"),
    ("if ", "a < b)"),
    ("if (a", ")"),
    ("if (a ", "+ b)"),
    ("if (a < b) ", "return;"),
    ("if (a < b) goto <bb 2>; ", "}"),
    ("if (a < b) goto <bb 2>; else ", "return;"),
    ("switch (a) ", ";"),
    ("switch (a) { ", "}"),
    ("switch (a) { case ", "x:"),
    ("switch (a) { case 1 ", "<bb 2>;"),
    ("switch (a) { case 1: <bb 2>; ", "}"),
    ("switch (a) { default: ", "goto <bb 2>;"),
    ("switch (a) { default: <bb 2>; ", "case 1: <bb 3>;"),
    ("switch (a) { default: <bb 2>; ", "default: <bb 3>;"),
];

// What stands behind a label of a text of profile 2 and begins a program, and what follows with a bad token at its head.
const BAD_INDIRECT_CALLS: &[(&str, &str)] = &[
    ("x = *", "p ();"),
    ("*<", "(i32)> p (1);"),
    ("*<void ", "> p ();"),
    ("*<void (", "void)> p ();"),
    ("*<void (i32 ", "a)> p (1);"),
    ("*<void (i32,", ")> p (1);"),
    ("*<void () ", ">= p ();"),
    ("*<void ()> ", "&p ();"),
    ("*<void ()> p ", ";"),
    ("x = *<i32 ()> p () ", "+ 1;"),
];

// Whether the text between two others is read as the program whose printed form this is.
fn comes_back(
    alloc: Global,
    text: (&str, &str, &str),
    want: (&str, &str, &str),
) -> Result<bool, Fail> {
    let (before, inner, after) = text;
    let (want_before, want_inner, want_after) = want;
    let text = format!(in alloc; "{before}{inner}{after}")?;
    let want = format!(in alloc; "{want_before}{want_inner}{want_after}")?;
    let bytes = text.as_bytes();
    if bytes.len() >= 1_000_000 {
        return Ok(false);
    }
    match parse(alloc, bytes) {
        Ok(program) => match print(alloc, &program) {
            Ok(printed) => Ok(printed.as_slice() == want.as_bytes()),
            Err(_) => Ok(false),
        },
        Err(_) => Ok(false),
    }
}

// Whether the one fault of a text of one line is a bad token behind so many bytes.
fn is_bad_behind(alloc: Global, before: &str, begun: &str, rest: &str) -> Result<bool, Fail> {
    let text = format!(in alloc; "{before}{begun}{rest}")?;
    let bytes = text.as_bytes();
    if bytes.len() >= 1_000_000 {
        return Ok(false);
    }
    let column = (before.len() as u64)
        .saturating_add(begun.len() as u64)
        .saturating_add(1);
    let bad = TextFault::BadToken(Spot { line: 1, column });
    Ok(parse(alloc, bytes).err() == Some(bad))
}

#[test]
fn productions_are_read(rt: HostRuntime) -> Result<(), Fail> {
    let alloc = rt.alloc();
    for row in DECLARATIONS {
        let (text, want) = *row;
        let found = comes_back(alloc, (HEADER, text, ""), ("gimple 1;\n", want, ""))?;
        assert!(rt; found, "{text}");
    }
    let head = "gimple 1;\nvoid f () {\n  <bb 2>:\n    ";
    for row in STATEMENTS {
        let (text, want) = *row;
        let found = comes_back(
            alloc,
            (BODY, text, "return;}"),
            (head, want, "\n    return;\n}\n"),
        )?;
        assert!(rt; found, "{text}");
    }
    let second_head = "gimple 2;\nvoid f () {\n  <bb 2>:\n    ";
    for row in INDIRECT_CALLS {
        let (text, want) = *row;
        let found = comes_back(
            alloc,
            (SECOND_BODY, text, "return;}"),
            (second_head, want, "\n    return;\n}\n"),
        )?;
        assert!(rt; found, "{text}");
    }
    for row in ENDS {
        let (text, want) = *row;
        let found = comes_back(alloc, (BODY, text, "}"), (head, want, "\n}\n"))?;
        assert!(rt; found, "{text}");
    }
    Ok(())
}

#[test]
fn bad_tokens_are_found(rt: HostRuntime) -> Result<(), Fail> {
    let alloc = rt.alloc();
    for row in BAD_DECLARATIONS {
        let (begun, rest) = *row;
        assert!(rt; is_bad_behind(alloc, HEADER, begun, rest)?, "{begun}{rest}");
    }
    for row in BAD_STATEMENTS {
        let (begun, rest) = *row;
        assert!(rt; is_bad_behind(alloc, BODY, begun, rest)?, "{begun}{rest}");
    }
    for row in BAD_INDIRECT_CALLS {
        let (begun, rest) = *row;
        assert!(rt;
            is_bad_behind(alloc, SECOND_BODY, begun, rest)?,
            "{begun}{rest}"
        );
    }
    Ok(())
}
