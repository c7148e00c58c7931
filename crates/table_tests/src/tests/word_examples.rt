// Programs, with lines of the tables that a word asks for. The expected lines were worked out by hand, from the rules
// of docs/PASSES.md.

/// Under `divisions`: a loop whose every turn divides.
pub const DIVISIONS: &str = "\
# out of a loop
main: begin
receive a(val)
receive b(val)
L1: x <- a / b
i <- i + x
if i < 9 goto L1
print i
return x
end
$
tables 1 divisions
unit main
stage lower
globals 0
$
pass split
stage split
globals 0
vars a b x i
received a b
node 0 start 6
node 1 assign 2 x <- a / b
node 2 assign 3 i <- i + x
node 3 test 7,4 if i < 9
node 4 print 5 print i
node 5 return - return x
node 6 skip 1
node 7 skip 1
pass divisions
expression 0 h1 a / b
row 01000000 used
row 10000000 killed
row 00111101 available
row 01000011 anticipatable
row 01000011 sure
row 00000010 earliest
row 00000010 delayed
row 00000010 latest
row 10001100 isolated
row 00000010 inserted
row 01000000 replaced
edges 01110011 held
stage divisions
globals 0
vars a b x i h1
received a b
node 0 start 8
node 1 assign 2 x <- h1
node 2 assign 3 i <- i + x
node 3 test 7,4 if i < 9
node 4 print 5 print i
node 5 return - return x
node 6 skip 1
node 7 skip 1
node 8 assign 6 h1 <- a / b
pass clean
stage result
globals 0
vars a b x i h1
received a b
# behind a print every path divides, but no run is sure to come there first
main: begin
receive a(val)
receive b(val)
print a
x <- a / b
return x
end
$
pass divisions
expression 0 - a / b
row 0010 used
row 1000 killed
row 0001 available
row 0110 anticipatable
row 0010 sure
row 0010 earliest
row 0010 delayed
row 0010 latest
row 1111 isolated
row 0000 inserted
row 0000 replaced
edges 000 held
stage divisions
";

/// Under `tails`: each way in which a call can stand.
pub const TAILS: &str = "\
# dropped, and used before it is returned
main: begin
receive n(val)
if n <= 0 goto L1
m <- n - 1
x <- main,(m,int)
y <- x + 1
if n = 5 goto L2
return y
L2: call main,(m,int)
return y
L1: return 0
end
$
tables 1 tails
unit main
stage lower
globals 0
$
node 9 return - return 0
pass tails
call 3 main then 4
call 7 main dropped
stage tails
globals 0
vars n m x y
# its own, another unit, a global
global g
main: begin
receive n(val)
if n <= 0 goto L1
x <- main,(n,int)
return x
L1: y <- f,(n,int)
goto L2
L2: return y
end
f: begin
receive k(val)
g <- f,(k,int)
return g
end
$
pass tails
call 2 main loop
call 4 f tail
stage tails
globals 1
vars g n x y h1
received n
$
unit f
stage lower
$
pass tails
call 1 f global
stage tails
globals 1
vars g k
received k
node 0 start 1
node 1 call 2 g <- f,(k,int)
node 2 return - return g
pass clean
stage result
";

/// Under `join`: leaves, units that are none, and their calls.
pub const JOINS: &str = "\
# two leaves, and a unit that calls
main: begin
receive a(val)
receive n(val)
if n <= 0 goto L2
L1: s <- scaled,(a,int;i,int)
t <- t + s
c <- clamped,(t,int)
print c
i <- i + 1
if i < n goto L1
L2: return t
end
scaled: begin
receive x(val)
receive k(val)
w <- x * x
r <- w + k
return r
end
clamped: begin
receive v(val)
if v <= 100 goto L1
return 100
L1: return v
end
$
tables 1 join
body main 10 calls scaled
body scaled 5 leaf
body clamped 4 leaf
unit main
stage lower
globals 0
$
pass join
call 2 scaled joined
call 4 clamped joined
stage join
globals 0
vars a n s i t c h1 h2 h3 h4 h5
$
unit scaled
$
pass join
stage join
# long units
main: begin
call f,()
call g,()
end
f: begin
print 1
print 1
print 1
print 1
print 1
print 1
print 1
print 1
print 1
print 1
print 1
print 1
print 1
print 1
print 1
print 1
print 1
print 1
print 1
print 1
print 1
print 1
print 1
print 1
print 1
print 1
print 1
print 1
print 1
print 1
print 1
print 1
print 1
end
g: begin
print 1
print 1
print 1
print 1
print 1
print 1
print 1
print 1
print 1
print 1
print 1
print 1
print 1
print 1
print 1
print 1
print 1
print 1
print 1
print 1
print 1
print 1
print 1
print 1
print 1
print 1
print 1
print 1
print 1
print 1
print 1
print 1
call f,()
end
$
tables 1 join
body main 2 calls f
body f 33 long
body g 33 long calls f
unit main
$
pass join
call 1 f stays
call 2 g stays
stage join
$
laid 3 taken
unit f
";

/// Under `bounds`: what tests and operators tell of variables.
pub const BOUNDS: &str = "\
# an end from a test, an end from an operator, and a test that they decide
main: begin
receive a(val)
if a < 0 goto L1
x <- a min 255
if x > 300 goto L1
print x
L1: return a
end
$
tables 1 bounds
unit main
stage lower
globals 0
$
pass bounds
state 0 0 0
state 1 .. 0
state 2 0.. 0
state 3 0.. 0..255
state 4 0.. 0..255
state 5 .. 0..255
stage bounds
globals 0
vars a x
received a
node 0 start 1
node 1 test 5,2 if a < 0
node 2 assign 3 x <- a min 255
node 3 skip 4
node 4 print 5 print x
node 5 return - return a
pass clean
# no run comes to one side
main: begin
receive a(val)
x <- a and 7
if x < 0 goto L1
return x
L1: print a
return 0
end
$
pass bounds
state 0 0 0
state 1 .. 0
state 2 .. 0..127
state 3 .. 0..127
state 4 unreached
state 5 unreached
stage bounds
globals 0
vars a x
received a
node 0 start 1
node 1 assign 2 x <- a and 7
node 2 skip 3
node 3 return - return x
pass clean
stage result
";

/// Under `wanted`: how many bits are wanted.
pub const WANTED: &str = "\
# four bits of a sum
main: begin
receive a(val)
b <- a + 256
y <- b and 15
return y
end
$
tables 1 wanted
unit main
stage lower
globals 0
$
pass wanted
wanted 0 4 0 0
wanted 1 4 0 0
wanted 2 0 4 0
wanted 3 0 0 64
stage wanted
globals 0
vars a b y
received a
node 0 start 1
node 1 assign 2 b <- a
node 2 assign 3 y <- b and 15
node 3 return - return y
pass clean
";

/// Under `demanded`: how many bits the units want of one another.
pub const DEMANDED: &str = "\
# four bits of one argument, and none of the other
main: begin
receive a(val)
m <- a * a
b <- f,(a,int;m,int)
b <- b and 15
return b
end
f: begin
receive v(val)
receive w(val)
y <- v and 255
return y
end
$
tables 1 demanded
unit main
stage lower
globals 0
$
pass demanded
entered 4
returned 64
wanted 0 4 0 0
wanted 1 4 0 0
wanted 2 4 0 0
wanted 3 0 0 4
wanted 4 0 0 64
stage demanded
globals 0
vars a m b
received a
node 0 start 1
node 1 skip 2
node 2 call 3 b <- f,(a,int;0,int)
node 3 assign 4 b <- b and 15
node 4 return - return b
pass clean
$
pass demanded
entered 4 0
returned 4
wanted 0 4 0 0
wanted 1 4 0 0
wanted 2 0 0 4
stage demanded
globals 0
vars v w y
received v w
node 0 start 1
node 1 assign 2 y <- v
node 2 return - return y
pass clean
";
