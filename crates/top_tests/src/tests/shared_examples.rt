// Worked examples of global variables and of trap instructions, byte for byte, in the form of the other examples: each
// command is called on both.

pub const SHARED_EXAMPLES: &str = "\
# a global that a call sets
global g
main: begin
receive a(val)
g <- a + 1
x <- g * 2
call f,()
y <- g * 2
z <- x + y
return z
end
f: begin
g <- g + 1
end
$ run 100 4
@ 0
result 22
evals 5
$ optimise
@ 0
global g
main: begin
receive a(val)
g <- a + 1
x <- g * 2
call f,()
y <- g * 2
z <- x + y
return z
end
f: begin
g <- g + 1
return 0
end
$ | run 100 4
@ 0
result 22
evals 5
# the last assignment of a global before a return stays, and the one before it goes
global g
main: begin
g <- 1
g <- 2
end
$ optimise
@ 0
global g
main: begin
g <- 2
return 0
end
# a sum of a global is evaluated anew behind a call, which sets the global
global g
main: begin
receive a(val)
x <- g + a
print x
call f,()
y <- g + a
z <- g + a
print y
return z
end
f: begin
g <- g + 1
end
$ move
@ 0
global g
main: begin
receive a(val)
x <- g + a
print x
call f,()
h1 <- g + a
y <- h1
z <- h1
print y
return z
end
f: begin
g <- g + 1
return 0
end
$ | run 100 4
@ 0
4
5
result 5
evals 3
$ ranges
@ 0
unit main
h1 <- g + a inserted 1 replaced 2 held 1
unit f
# a global is no variable of a frame: a self tail call sets the others to 0 alone
global g
main: begin
receive n(val)
if n = 0 goto L1
g <- g + n
n <- n - 1
x <- main,(n,int)
return x
L1: return g
end
$ tails
@ 0
global g
main: begin
receive n(val)
L1: if n = 0 goto L2
g <- g + n
n <- n - 1
h1 <- n
n <- h1
x <- 0
goto L1
L2: return g
end
$ | run 100 3
@ 0
result 6
evals 6
$ run 100 3
@ 0
result 6
evals 6
# a call whose result is a global is no self tail call
global g
main: begin
receive n(val)
if n = 0 goto L1
n <- n - 1
g <- main,(n,int)
return g
L1: return 7
end
$ tails
@ same
# a leaf that sets a global, called twice
global g
main: begin
receive n(val)
call add,(n,int)
call add,(2,int)
return g
end
add: begin
receive k(val)
g <- g + k
end
$ join
@ 0
global g
main: begin
receive n(val)
h1 <- n
g <- g + h1
h1 <- 2
g <- g + h1
return g
end
add: begin
receive k(val)
g <- g + k
return 0
end
$ | run 100 5
@ 0
result 7
evals 2
$ run 100 5
@ 0
result 7
evals 2
# a trap that is raised, and an assignment that sinks behind it
main: begin
receive a(val)
x <- a + 1
if a < 0 trap 7
print x
return x
end
$ run 9 -1
@ 3
trapped 7
evals 1
$ optimise
@ 0
main: begin
receive a(val)
if a < 0 trap 7
x <- a + 1
print x
return x
end
$ | run 9 -1
@ 3
trapped 7
evals 0
# traps whose tests are decided
main: begin
if 1 > 2 trap 3
if 2 > 1 trap 4
end
$ optimise
@ 0
main: begin
if 2 > 1 trap 4
return 0
end
$ | run 9
@ 3
trapped 4
evals 0
# a division moves behind a trap
main: begin
receive a(val)
receive b(val)
if b = 0 trap 2
x <- a / b
print x
y <- a / b
return y
end
$ divisions
@ 0
main: begin
receive a(val)
receive b(val)
if b = 0 trap 2
h1 <- a / b
x <- h1
print x
y <- h1
return y
end
$ | run 9 7 0
@ 3
trapped 2
evals 0
# and not before it
main: begin
receive a(val)
receive b(val)
if a goto L1
x <- a / b
L1: if a < 0 trap 255
y <- a / b
y <- y + x
return y
end
$ divisions
@ same
# a leaf with a trap is joined into its caller
main: begin
receive n(val)
x <- f,(n,int)
return x
end
f: begin
receive d(val)
if d = 0 trap 4
z <- 10 / d
return z
end
$ join
@ 0
main: begin
receive n(val)
h1 <- n
h2 <- 0
if h1 = 0 trap 4
h2 <- 10 / h1
x <- h2
return x
end
f: begin
receive d(val)
if d = 0 trap 4
z <- 10 / d
return z
end
$ | run 100 0
@ 3
trapped 4
evals 0
";
