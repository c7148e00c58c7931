// Programs, with lines of their tables. The expected lines were worked out by a program of their own, from the rules of
// docs/PASSES.md.

/// The whole text of the smallest program.
pub const SMALLEST_TABLES: &str = "\
tables 1
unit main
stage lower
globals 0
vars
received
node 0 start 1
node 1 return - return 0
pass clean
stage clean
globals 0
vars
received
node 0 start 1
node 1 return - return 0
pass fold
state 0
state 1
stage fold
globals 0
vars
received
node 0 start 1
node 1 return - return 0
pass number
terms 0 0
terms 1 0
stage number
globals 0
vars
received
node 0 start 1
node 1 return - return 0
pass copies
stage copies
globals 0
vars
received
node 0 start 1
node 1 return - return 0
pass split
stage split
globals 0
vars
received
node 0 start 1
node 1 return - return 0
pass motion
stage motion
globals 0
vars
received
node 0 start 1
node 1 return - return 0
pass copies
stage copies after motion
globals 0
vars
received
node 0 start 1
node 1 return - return 0
pass sink
stage sunk 1
globals 0
vars
received
node 0 start 1
node 1 return - return 0
pass prune
row 00 dead
stage round 1
globals 0
vars
received
node 0 start 1
node 1 return - return 0
pass clean
stage result
globals 0
vars
received
node 0 start 1
node 1 return - return 0
";

/// Examples: a name, a text, and behind each line `$` lines that stand in its tables one after the other. Those of code
/// motion are the stored run of `mir_tables` and the whole texts in `examples/`, which `docs/check` compares.
pub const EXAMPLES: &str = "\
# states
main: begin
receive a(val)
d <- 0
if d goto L2
x <- 4
if a goto L1
x <- 2 * 2
y <- 1
L1: z <- x + y
w <- a + d
print z
return w
L2: q <- a / d
return q
end
$
pass fold
state 0 0 0 0 0 0 0 0
state 1 ? 0 0 0 0 0 0
state 2 ? 0 0 0 0 0 0
state 3 ? 0 0 0 0 0 0
state 4 ? 0 4 0 0 0 0
state 5 ? 0 4 0 0 0 0
state 6 ? 0 4 0 0 0 0
state 7 ? 0 4 ? 0 0 0
state 8 ? 0 4 ? ? 0 0
state 9 ? 0 4 ? ? ? 0
state 10 ? 0 4 ? ? ? 0
state 11 unreached
state 12 unreached
# rounds
main: begin
receive a(val)
receive b(val)
x <- a + b
if a goto L1
return b
L1: return x
end
$
pass sink
pattern 0 x <- a + b
row 11001 blocked
row 00111 delayed
row 00001 inserted
stage sunk 1
globals 0
vars a b x
received a b
node 0 start 1
node 1 skip 2
node 2 test 5,3 if a
node 3 return - return b
node 4 return - return x
node 5 assign 4 x <- a + b
pass prune
row 000000 dead
variable 0 a
row 111001 live before
variable 1 b
row 111101 live before
variable 2 x
row 000010 live before
stage round 1
globals 0
vars a b x
received a b
node 0 start 1
node 1 skip 2
node 2 test 5,3 if a
node 3 return - return b
node 4 return - return x
node 5 assign 4 x <- a + b
pass sink
stage sunk 2
globals 0
vars a b x
received a b
node 0 start 1
node 1 skip 2
node 2 test 5,3 if a
node 3 return - return b
node 4 return - return x
node 5 skip 6
node 6 assign 4 x <- a + b
pass prune
row 0000000 dead
variable 0 a
row 1110011 live before
variable 1 b
row 1111011 live before
variable 2 x
row 0000100 live before
stage round 2
globals 0
vars a b x
received a b
node 0 start 1
node 1 skip 2
node 2 test 5,3 if a
node 3 return - return b
node 4 return - return x
node 5 skip 6
node 6 assign 4 x <- a + b
# terms and copies: the product of y and b is that of a and b, which x has
main: begin
receive a(val)
receive b(val)
x <- a * b
y <- a
z <- y * b
return z
end
$
pass number
term 0 leaf a 0
term 1 leaf b 0
term 2 * 0 1
terms 0 0 - - - - -
terms 1 0 - - - - -
terms 2 0 - - 2 - -
terms 3 0 - - 2 0 -
terms 4 0 - - 2 0 2
stage number
globals 0
vars a b x y z
received a b
node 0 start 1
node 1 assign 2 x <- a * b
node 2 assign 3 y <- a
node 3 assign 4 z <- x
node 4 return - return z
pass copies
copy 0 y <- a
row 00011 held
copy 1 z <- x
row 00001 held
stage copies
# a global, a trap instruction and calls
global g
main: begin
receive d(val)
if d = 0 trap 4
x <- f,(d,int;7,int)
call f,(x,int;d,int)
print g
return x
end
f: begin
receive a(val)
receive b(val)
g <- a
return b
end
$
unit main
stage lower
globals 1
vars g d x
received d
node 0 start 1
node 1 guard 2 if d = 0 trap 4
node 2 call 3 x <- f,(d,int;7,int)
node 3 call 4 call f,(x,int;d,int)
node 4 print 5 print g
node 5 return - return x
pass clean
$
unit f
stage lower
globals 1
vars g a b
received a b
node 0 start 1
node 1 assign 2 g <- a
node 2 return - return b
pass clean
$
pass fold
state 0 ? 0 0
state 1 ? ? 0
state 2 ? ? 0
state 3 ? ? ?
state 4 ? ? ?
state 5 ? ? ?
stage fold
";
