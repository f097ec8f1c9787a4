// The texts of the large inputs.
ghost use Rattle.std.specs.Prelude.{◌≡◌, ◌++◌, ◌<◌, ◌≤◌, flat_map, decimal, IfOk, OnOk};
ghost use Rattle.tam_word.specs.Lists.{below};
ghost use Rattle.tam_make.specs.MadeTexts.{IsCount, made_text, ladder_text, wave_text, step_text, rung_text, call_text, end_text};

use crate::shape::Shape;
use std::alloc::{AllocError, Global};
use tam_edge::NoMemory;
use tam_word::print_number;

/// The text of a large input.
///
/// docs/FORMATS.md, "Large inputs".
pub fn make(alloc: Global, shape: Shape, n: u32) -> Result<Vec<u8>, NoMemory>
    requires in_range { IsCount shape n }
    ensures value { IfOk result (λ text. text.items ≡ made_text shape n) }
{
    match shape {
        Shape::Ladder => ladder(alloc, n),
        Shape::Wave => wave(alloc),
    }
}

// The ladder's text.
fn ladder(alloc: Global, n: u32) -> Result<Vec<u8>, NoMemory>
    requires in_range { n ≤ 200 }
    ensures value { IfOk result (λ text. text.items ≡ ladder_text n) }
{
    let mut text = Vec::from_slice(alloc, LADDER_MAIN)?;
    for i in 0..n {
        push_step(&mut text, n, i + 1)?;
    }
    Ok(text)
}

// The wave's text.
fn wave(alloc: Global) -> Result<Vec<u8>, NoMemory>
    ensures value { IfOk result (λ text. text.items ≡ wave_text) }
{
    let text = Vec::from_slice(alloc, WAVE)?;
    Ok(text)
}

// Adds a code of the ladder.
fn push_step(text: &mut Vec<u8>, n: u32, k: u32) -> Result<(), AllocError>
    requires in_range { k ≤ 200 }
    ensures ok { OnOk result (text.new.items ≡ text.old.items ++ step_text n k) }
{
    text.extend_from_slice(b"code s")?;
    push_number(text, k)?;
    text.extend_from_slice(b"\nx = param 0\nk = const ")?;
    push_number(text, k)?;
    text.extend_from_slice(b"\na1 = add x k\n")?;
    push_rungs(text)?;
    push_end(text, n, k)
}

// Adds a code's lines that add once more.
fn push_rungs(text: &mut Vec<u8>) -> Result<(), AllocError>
    ensures ok { OnOk result (text.new.items ≡ text.old.items ++ flat_map rung_text (below 99)) }
{
    for i in 0..99 {
        push_rung(text, i)?;
    }
    Ok(())
}

// Adds one of them.
fn push_rung(text: &mut Vec<u8>, i: u32) -> Result<(), AllocError>
    requires in_range { i < 99 }
    ensures ok { OnOk result (text.new.items ≡ text.old.items ++ rung_text i) }
{
    text.extend_from_slice(b"a")?;
    push_number(text, i + 2)?;
    text.extend_from_slice(b" = add a")?;
    push_number(text, i + 1)?;
    text.extend_from_slice(b" k\n")
}

// Adds how a code ends.
fn push_end(text: &mut Vec<u8>, n: u32, k: u32) -> Result<(), AllocError>
    requires in_range { k ≤ 200 }
    ensures ok { OnOk result (text.new.items ≡ text.old.items ++ end_text n k) }
{
    if k < n {
        push_call(text, k + 1)
    } else {
        text.extend_from_slice(b"result 0 a100\nend\n")
    }
}

// Adds the lines of a call of code k, whose result is the code's.
fn push_call(text: &mut Vec<u8>, k: u32) -> Result<(), AllocError>
    ensures ok { OnOk result (text.new.items ≡ text.old.items ++ call_text k) }
{
    text.extend_from_slice(b"f = call s")?;
    push_number(text, k)?;
    text.extend_from_slice(b"\narg f 0 a100\nr = ret f 0\nresult 0 r\nend\n")?;
    Ok(())
}

// Adds a number in decimal.
fn push_number(text: &mut Vec<u8>, number: u32) -> Result<(), AllocError>
    ensures ok { OnOk result (text.new.items ≡ text.old.items ++ decimal number) }
{
    let mut digits = [0; 10];
    let len = print_number(number, &mut digits);
    text.extend_from_slice(&digits[..len])
}

// The ladder's head and its `main`.
const LADDER_MAIN: &[u8] = b"dg 1
code main
x = param 0
f = call s1
arg f 0 x
r = ret f 0
result 0 r
end
";

// The wave.
const WAVE: &[u8] = b"dg 1
code main
n = param 0
B:2 = alloc n
z = const 0
r = call rows
arg r 0 B
arg r 1 n
arg r 2 z
one = const 1
l = sub n one
A:1 = fetch B l
v = fetch A l
result 0 v
end
code rows
B:2 = param 0
n = param 1
i = param 2
more = sltu i n
c = cond more
b:2 = in 0
m = in 1
k = in 2
R:1 = alloc m
store b k R
z = const 0
q = call cols
arg q 0 b
arg q 1 R
arg q 2 m
arg q 3 k
arg q 4 z
one = const 1
k1 = add k one
t = call rows
arg t 0 b
arg t 1 m
arg t 2 k1
else
b0:2 = in 0
m0 = in 1
k0 = in 2
end
switch c 0 B
switch c 1 n
switch c 2 i
end
code cols
B:2 = param 0
R:1 = param 1
n = param 2
i = param 3
j = param 4
more = sltu j n
c = cond more
b:2 = in 0
r:1 = in 1
m = in 2
y = in 3
x = in 4
inner = mul y x
d = cond inner
b1:2 = in 0
r1:1 = in 1
y1 = in 2
x1 = in 3
k1 = const 1
up = sub y1 k1
U:1 = fetch b1 up
u = fetch U x1
left = sub x1 k1
w = fetch r1 left
s = add u w
out 0 s
else
b2:2 = in 0
r2:1 = in 1
y2 = in 2
x2 = in 3
k2 = const 1
out 0 k2
end
switch d 0 b
switch d 1 r
switch d 2 y
switch d 3 x
v = merge d 0
store r x v
k3 = const 1
x3 = add x k3
t = call cols
arg t 0 b
arg t 1 r
arg t 2 m
arg t 3 y
arg t 4 x3
else
b4:2 = in 0
r4:1 = in 1
n4 = in 2
i4 = in 3
j4 = in 4
end
switch c 0 B
switch c 1 R
switch c 2 n
switch c 3 i
switch c 4 j
end
";
