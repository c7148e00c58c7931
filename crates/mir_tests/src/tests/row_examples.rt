// Examples of what the passes find out before they change a graph: the tables of `docs/PASSES.md`.

/// Examples in the form of `EXAMPLES`. Where a bit holds by a statement about paths is asked of one bit at a time.
pub(crate) const ROW_EXAMPLES: &str = "\
# a loop without exit: a bit that is born at a sum, and stopped at Start and at a copy
main: begin
L: a <- a + 1
a <- a
goto L
end
$ lower: before born 1 stop 0 2
before 2
$ lower: after born 1 stop 0 2
after 1 3
$ lower: ahead born 1 stop 0 2
ahead 1 3
$ lower: beyond born 1 stop 0 2
beyond 0 2 3
# no path from a jump to itself ends, so all that end have on them what is asked, and none has
main: begin
L: goto L
print a
end
$ lower: before born stop 0
before
$ lower: after born stop 0
after 1
$ lower: ahead born stop 0
ahead
# states of constants: what is decided, and the nodes 11 and 12, to which no run comes
main: begin
receive a(val)
d <- 0
if d goto L2
x <- 4
if a goto L1
x <- 2 * 2
y <- 1
L1: z <- x + y
w <- a + d
print z
return w
L2: q <- a / d
return q
end
$ lower clean: known
0 a=0 d=0 x=0 y=0 z=0 w=0 q=0
1 a=? d=0 x=0 y=0 z=0 w=0 q=0
2 a=? d=0 x=0 y=0 z=0 w=0 q=0
3 a=? d=0 x=0 y=0 z=0 w=0 q=0
4 a=? d=0 x=4 y=0 z=0 w=0 q=0
5 a=? d=0 x=4 y=0 z=0 w=0 q=0
6 a=? d=0 x=4 y=0 z=0 w=0 q=0
7 a=? d=0 x=4 y=? z=0 w=0 q=0
8 a=? d=0 x=4 y=? z=? w=0 q=0
9 a=? d=0 x=4 y=? z=? w=? q=0
10 a=? d=0 x=4 y=? z=? w=? q=0
11 not reached
12 not reached
$ lower clean fold
0: start to 1
1: d <- 0 to 2
2: skip to 3
3: x <- 4 to 4
4: if a to 7 else 5
5: x <- 4 to 6
6: y <- 1 to 7
7: z <- 4 + y to 8
8: w <- a to 9
9: print z to 10
10: return w
# terms: the product of y and b is that of a and b, and after a is assigned the product of a and b is another
main: begin
receive a(val)
receive b(val)
x <- a * b
y <- a
z <- y * b
a <- b
w <- a * b
print w
return z
end
$ lower: terms
0 from 0
1 from 0
2 from 0 x=(a0*b0)
3 from 0 x=(a0*b0) y=a0
4 from 0 x=(a0*b0) y=a0 z=(a0*b0)
5 from 0 a=b0 x=(a0*b0) y=a0 z=(a0*b0)
6 from 0 a=b0 x=(a0*b0) y=a0 z=(a0*b0) w=(b0*b0)
7 from 0 a=b0 x=(a0*b0) y=a0 z=(a0*b0) w=(b0*b0)
$ lower number: changes
3: z <- x to 4
7 stay
# terms begin anew at the loop, and what one way from a test assigns is no term on the other
main: begin
receive a(val)
x <- -a
L: x <- x + 1
y <- x / a
if y goto M
x <- -y
goto L
M: z <- call f,(x,int)
return z
end
f: begin
receive a(val)
return a
end
$ lower: terms
0 from 0
1 from 0
2 from 2
3 from 2 x=(x2+1)
4 from 2 x=(x2+1) y=node3.y
5 from 2 x=(x2+1) y=node3.y
6 from 2 x=-node3.y y=node3.y
7 from 2 x=(x2+1) y=node3.y
8 from 2 x=(x2+1) y=node3.y z=node7.z
# copies: b of a, c of b, b of i and b of c in turn, and what becomes of the nodes
main: begin
receive a(val)
b <- a
i <- 0
L1: c <- b
i <- i + c
print b
b <- i
b <- c
if i < b goto L1
return c
end
$ lower: copies
b <- a 2
c <- b 4 5 6
b <- i 7
b <- c 8 9
$ lower copies: changes
4: i <- i + b to 5
8: if i < c to 3 else 9
8 stay
# the diamond: delayed from 1, the earliest, to the use at 3 and to 8; needed beyond 3, 4, 8 and 9, the rest isolated
main: begin
receive a(val)
receive b(val)
if a goto L1
print a
goto L2
L1: x <- a + b
print x
L2: y <- a + b
print y
return y
end
$ lower clean split: motion
used 3 5
killed 0
available 4 6 7 9
anticipatable 1 2 3 4 5 8 9
earliest 1
delayed 1 2 3 8
latest 3 8
isolated 0 1 2 5 6 7
busy inserted 1
busy replaced 3 5
lazy inserted 3 8
lazy replaced 3 5
$ lower clean split: ranges
a + b inserted 2 replaced 2 held 4
on 3-4 4-9 8-5 9-5
# a loop before the diamond: the busy placement inserts before the loop, at 9, and the lazy one at the use at 4 and at 12
main: begin
receive a(val)
receive b(val)
L1: i <- i + 1
if i < a goto L1
if b goto L2
x <- a + b
print x
goto L3
L2: print b
L3: y <- a + b
return y
end
$ lower clean split: motion of the second
used 4 7
killed 0
available 5 8 11
anticipatable 1 2 3 4 5 6 7 9 10 11 12
earliest 9
delayed 1 2 3 4 6 9 10 12
latest 4 12
isolated 0 1 2 3 6 7 8 9 10
busy inserted 9
busy replaced 4 7
lazy inserted 4 12
lazy replaced 4 7
# the first use kills what it evaluates, so the second is evaluated anew, and both are isolated
main: begin
receive a(val)
print a
a <- a + 1
x <- a + 1
return x
end
$ lower: motion
used 2 3
killed 0 2
available 4
anticipatable 1 2 3
earliest 1 3
delayed 1 2 3
latest 2 3
isolated 0 1 2 3 4
busy inserted 1 3
busy replaced 2 3
lazy inserted
lazy replaced
# what a loop evaluates each time around is evaluated once, before it
main: begin
receive a(val)
goto L
L: x <- a + 1
if x goto M
return x
M: goto L
end
$ lower: motion
used 2
killed 0
available 3 4 5
anticipatable 1 2 5
earliest 1
delayed 1
latest 1
isolated 0 4
busy inserted 1
busy replaced 2
lazy inserted 1
lazy replaced 2
# what a repeated loop evaluates is held around it, on the edge into it and on the four of its circle
main: begin
receive a(val)
receive b(val)
L1: x <- a + b
i <- i + 1
if i < x goto L1
return i
end
$ lower clean split: ranges
a + b inserted 1 replaced 1 held 5
on 1-2 2-3 3-6 5-1 6-1
# a while loop evaluates nothing before its test, so nothing is held
main: begin
receive a(val)
receive b(val)
receive n(val)
L1: if i >= n goto L2
x <- a + b
print x
i <- i + 1
goto L1
L2: return i
end
$ lower clean split: ranges
# uses from which no Return is reached: of them nothing is said
main: begin
receive a(val)
print a
x <- a + 1
L: y <- a + 1
print y
goto L
end
$ lower clean split: ranges
a + 1 inserted 1 replaced 2 held 0
on
# what is used only once stays as it is
main: begin
receive a(val)
print a
x <- a + 1
return x
end
$ lower: motion
used 2
killed 0
available 3
anticipatable 1 2
earliest 1
delayed 1 2
latest 2
isolated 0 1 2 3
busy inserted 1
busy replaced 2
lazy inserted
lazy replaced
# an assignment that one way does not need sinks into the other, where its variable is live
main: begin
receive a(val)
receive b(val)
x <- a + b
if a goto L1
return b
L1: return x
end
$ lower split: delays
x <- a + b
blocked 0 1 4
delayed 2 3 4
inserted 4
$ lower split round
0: start to 1
1: skip to 2
2: if a to 5 else 3
3: return b
4: return x
5: x <- a + b to 4
$ lower split round: delays
$ lower split round: live
a before 0 1 2 5
a after 0 1 2
b before 0 1 2 3 5
b after 0 1 2
x before 4
x after 5
# two assignments that lead to a join, from which a Skip parts each: each can move to its Skip, and no further
main: begin
receive a(val)
if a goto L1
x <- 1
goto L2
L1: x <- 2
L2: print x
return x
end
$ lower clean split: delays
x <- 1
blocked 0 2 3 4 5
delayed 6
inserted 6
x <- 2
blocked 0 2 3 4 5
delayed 7
inserted 7
# where n, i and x are live in turn: the first assignment is dead, and a division stays
main: begin
receive n(val)
x <- 1
x <- n + 1
d <- 1 / n
L1: print x
i <- i + 1
if i < n goto L1
return 0
end
$ lower: live
n before 0 1 2 3 4 5 6
n after 0 1 2 3 4 5 6
x before 3 4 5 6
x after 2 3 4 5 6
d before
d after
i before 0 1 2 3 4 5 6
i after 0 1 2 3 4 5 6
$ lower split round
0: start to 1
1: skip to 10
2: skip to 3
3: d <- 1 / n to 12
4: print x to 5
5: skip to 11
6: if i < n to 9 else 7
7: return 0
8: skip to 4
9: skip to 4
10: skip to 2
11: i <- i + 1 to 6
12: x <- n + 1 to 8
# behind a call nothing is known of a global, and it has no term from before; a trap instruction changes none
global g
main: begin
receive a(val)
g <- 3
x <- g + a
if g = a trap 7
y <- g + a
call f,()
z <- g + a
return z
end
f: begin
g <- 1
end
$ lower: known
0 g=? a=0 x=0 y=0 z=0
1 g=? a=? x=0 y=0 z=0
2 g=3 a=? x=0 y=0 z=0
3 g=3 a=? x=? y=0 z=0
4 g=3 a=? x=? y=0 z=0
5 g=3 a=? x=? y=? z=0
6 g=? a=? x=? y=? z=0
7 g=? a=? x=? y=? z=?
$ lower: terms
0 from 0
1 from 0
2 from 0 g=3
3 from 0 g=3 x=(3+a0)
4 from 0 g=3 x=(3+a0)
5 from 0 g=3 x=(3+a0) y=(3+a0)
6 from 0 g=node5.g x=(3+a0) y=(3+a0)
7 from 0 g=node5.g x=(3+a0) y=(3+a0) z=(node5.g+a0)
$ lower number: changes
4: y <- x to 5
7 stay
# a global is copied up to the next call; the test of a trap instruction reads what its variable is a copy of
global g
main: begin
b <- g
if b = 1 trap 2
print b
call f,()
print b
return g
end
f: begin
g <- 1
end
$ lower: copies
b <- g 2 3 4
$ lower copies: changes
2: if g = 1 trap 2 to 3
3: print g to 4
5 stay
# a sum of a global may be evaluated before a trap instruction that its use is behind, and not before a call
global g
main: begin
receive a(val)
if a trap 1
x <- g + a
call f,()
y <- g + a
z <- g + a
return z
end
f: begin
g <- 1
end
$ lower: motion
used 2 4 5
killed 0 3
available 3 5 6
anticipatable 1 2 4 5
earliest 1 4
delayed 1 2 4
latest 2 4
isolated 0 1 2 3 5 6
busy inserted 1 4
busy replaced 2 4 5
lazy inserted 4
lazy replaced 4 5
# what a trap instruction does not read sinks past it; each global is live at calls and returns
global g
main: begin
receive a(val)
g <- 1
x <- a + 1
if a trap 7
g <- 2
y <- a + 2
if y trap 8
print x
call f,()
g <- 3
g <- 4
return y
end
f: begin
g <- 1
end
$ lower: live
g before 5 6 7 8 11
g after 4 5 6 7 10
a before 0 1 2 3 4 5
a after 0 1 2 3 4
x before 3 4 5 6 7
x after 2 3 4 5 6
y before 6 7 8 9 10 11
y after 5 6 7 8 9 10
$ lower: delays
g <- 1
blocked 0 1 4 8 9 10 11
delayed 2 3 4
inserted 4
g <- 2
blocked 0 1 4 8 9 10 11
delayed 5 6 7 8
inserted 8
x <- a + 1
blocked 0 2 7
delayed 3 4 5 6 7
inserted 7
$ lower round
0: start to 1
1: skip to 2
2: skip to 3
3: if a trap 7 to 12
4: skip to 5
5: skip to 13
6: if y trap 8 to 14
7: print x to 15
8: call 1 to 9
9: skip to 16
10: skip to 17
11: return y
12: skip to 4
13: y <- a + 2 to 6
14: x <- a + 1 to 7
15: g <- 2 to 8
16: skip to 10
17: g <- 4 to 11
";
