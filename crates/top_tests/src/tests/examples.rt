// Worked examples of programs that `optimise` gives another form, or leaves as they are, byte for byte. `worked.rt`
// says how an example is written.

pub const EXAMPLES: &str = "\
# the smallest program, which has no expression: one step leads to its end
main: begin
end
$ optimise
@ 0
main: begin
return 0
end
$ run 1
@ 0
result 0
evals 0
$ run 0
@ 4
running
evals 0
$ run 0000001 
@ 0
result 0
evals 0
$ run 1 5
@ 1
wrong inputs: 0 wanted
$ move
@ 0
main: begin
return 0
end
# a straight body, of which all is known
main: begin
x <- 007
y <- x - -2
print y
return
print x
end
$ optimise
@ 0
main: begin
print 9
return 0
end
$ move
@ 0
main: begin
x <- 7
y <- x - -2
print y
return 0
end
# variables that occur no more
f: begin
receive a(val)
x <- a + -9223372036854775808
return x
z <- b
end
$ optimise
@ 0
f: begin
receive a(val)
x <- a + -9223372036854775808
return x
end
# identities: a product with 0, and a division by 0 that stays
main: begin
receive a(val)
c <- 3
x <- a * 0
y <- x + c
z <- y / x
return z
end
$ optimise
@ 0
main: begin
receive a(val)
z <- 3 / 0
return z
end
# a constant test
main: begin
x <- 0
if x goto L1
print 7
return 1
L1: y <- 1 / 0
return y
end
$ optimise
@ 0
main: begin
print 7
return 1
end
# the least number by -1 has a quotient and a remainder
main: begin
m <- -9223372036854775808
n <- 0 - 1
q <- m / n
print q
r <- m mod n
return r
end
$ optimise
@ 0
main: begin
print -9223372036854775808
return 0
end
$ | run 9
@ 0
-9223372036854775808
result 0
evals 0
# where ways meet: an equal constant, a different one, and what a call answers
main: begin
receive a(val)
x <- 2 * 2
if a goto L1
x <- 4
y <- 1
L1: v <- main,(0,int)
print v
z <- x + y
print z
d <- 0
if d goto L2
w <- a + d
return w
L2: q <- a / d
return q
end
$ optimise
@ 0
main: begin
receive a(val)
if a goto L1
y <- 1
L1: v <- main,(0,int)
print v
z <- 4 + y
print z
return a
end
# labels and comments
|| one
main: begin
L: print 1 || two
M:
end
$ optimise
@ 0
main: begin
print 1
return 0
end
# a loop of one goto
main: begin
L1: goto L1
end
$ optimise
@ same
$ run 5
@ 4
running
evals 0
# a test that makes no difference, and an input at the type's end
main: begin
receive a(val)
if a goto L1
L1: return a
end
$ optimise
@ 0
main: begin
receive a(val)
return a
end
$ | run 1 -9223372036854775808
@ 4
running
evals 0
# a division that is dead and traps, and a return after it
main: begin
print 1
x <- 1 / 0
end
$ optimise
@ 0
main: begin
print 1
x <- 1 / 0
return 0
end
$ | run 9
@ 3
1
trapped zero divisor
evals 1
$ run 9
@ 3
1
trapped zero divisor
evals 1
# divisions, of which one traps, and too few inputs
main: begin
receive a(val)
receive b(val)
x <- a / b
print x
y <- a / b
return y
end
$ optimise
@ same
$ run 10 7 2
@ 0
3
result 3
evals 2
$ run 10 7 0
@ 3
trapped zero divisor
evals 1
$ run 10 7
@ 1
wrong inputs: 2 wanted
# two tests that lead to one place
main: begin
receive a(val)
if a goto L1
if ! a goto L1
return a
L1: print a
return 0
end
$ optimise
@ same
# a jump to the end, and a goto to itself
main: begin
receive a(val)
if a goto SELF
goto END
SELF: goto SELF
END: end
$ optimise
@ 0
main: begin
receive a(val)
if a goto L1
return 0
L1: goto L1
end
# a loop whose test stands first
main: begin
receive n(val)
L1: if n <= 0 goto L2
print n
n <- n - 1
goto L1
L2: return n
end
$ optimise
@ same
# a diamond
main: begin
receive a(val)
if a goto THEN
x <- 1
goto JOIN
THEN: x <- 2
JOIN: print x
end
$ optimise
@ 0
main: begin
receive a(val)
if a goto L2
x <- 1
L1: print x
return 0
L2: x <- 2
goto L1
end
# code that is not reached, and a chain of gotos
main: begin
goto A
print 1
A: goto B
B: print 2
goto END
END: end
$ optimise
@ 0
main: begin
print 2
return 0
end
# names in the order of the target
main: begin
goto A
B: print b
return a
A: a <- main,()
b <- main,()
goto B
end
$ optimise
@ 0
main: begin
a <- main,()
b <- main,()
print b
return a
end
# squares
|| squares and a loop invariant
main: begin
receive n(val)
s ← 0
i ← 1
L1: if i > n goto L2
t ← call square,(i,int)
k ← n * 8        || the same in each turn
s ← s + t
s ← s + k
i ← i + 1
goto L1
L2: print s
m ← n * 8
print m
return s
end

square: begin
receive x(val)
y ← x * x
return y
end
$ optimise
@ 0
main: begin
receive n(val)
s <- 0
i <- 1
h1 <- n * 8
L1: if i > n goto L2
t <- square,(i,int)
s <- s + t
s <- s + h1
i <- i + 1
goto L1
L2: print s
print h1
return s
end
square: begin
receive x(val)
y <- x * x
return y
end
# the same value under another name is computed once, and what only hands it on goes
main: begin
receive n(val)
receive m(val)
x <- n * m
y <- n
z <- y * m
return z
end
$ optimise
@ 0
main: begin
receive n(val)
receive m(val)
x <- n * m
return x
end
# squares of squares: terms that double with each line
main: begin
receive x(val)
y <- x
x <- x * x
y <- y * y
x <- x * x
y <- y * y
return y
end
$ optimise
@ 0
main: begin
receive x(val)
x <- x * x
x <- x * x
return x
end
# what one way alone needs is evaluated on it alone
main: begin
receive a(val)
x <- a * 2
if ! a goto L1
return x
L1: return 7
end
$ optimise
@ 0
main: begin
receive a(val)
if ! a goto L1
x <- a * 2
return x
L1: return 7
end
# an expression of its own variable stays
main: begin
receive i(val)
i <- i + 1
i <- i + 1
return i
end
$ optimise
@ same
";
