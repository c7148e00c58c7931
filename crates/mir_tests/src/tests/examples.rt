// Examples of passes.

/// An example is a line with a remark, a program, and what becomes of the graph of its first unit, once or more: after
/// `$` the passes in turn, of which the first is `lower` (`divide` moves divisions, and `put` has an editor put the sum
/// of the first two variables before node 5), and then the graph that they make, node by node. Where the line of the
/// passes ends with `: changes`, its nodes follow that the lowered graph does not have, and how many it has; with
/// `: blocks` its blocks; with `: known` what is known of its variables before each node; with `: terms` the terms that
/// they have there; with `: copies` where each of its copies holds; with `: delays` where each of its patterns that can
/// still move is blocked, delayed and inserted; with `: live` before and after which nodes each of its variables is
/// live; with `: motion` what code motion finds out of its first expression, and with `: motion of the second` of its
/// second; and with a statement about paths the nodes at which a bit holds by it that is born and stopped at these
/// nodes.
pub(crate) const EXAMPLES: &str = "\
# each kind of node
main: begin
receive a(val)
x <- a + -1
y <- ! x
y <- call main,(x,int)
call main,(7,int)
if x <= y goto L
if ! a goto L
if y > 3 trap 255
z <- y
goto L
L: return
end
$ lower
0: start to 1
1: x <- a + -1 to 2
2: y <- ! x to 3
3: y <- call 0 x to 4
4: call 0 7 to 5
5: if x <= y to 10 else 6
6: if ! a to 10 else 7
7: if y > 3 trap 255 to 8
8: z <- y to 9
9: skip to 10
10: return 0
# branches are blocks of their own, and so is the node at which they come together
main: begin
receive a(val)
if a goto M
print a
goto L
M: print 1
L: return a
end
$ lower: blocks
block 0 1
block 2 3
block 4
block 5
# a print that is not reached, a jump on the way to another one, and a test that makes no difference
main: begin
receive a(val)
if a goto then
x <- 1
goto join
then: x <- 2
goto join
print 9
join: goto out
out: if x goto last
last: print x
end
$ lower
0: start to 1
1: if a to 4 else 2
2: x <- 1 to 3
3: skip to 6
4: x <- 2 to 5
5: skip to 6
6: skip to 7
7: if x to 8 else 8
8: print x to 9
9: return 0
$ lower clean
0: start to 1
1: if a to 3 else 2
2: x <- 1 to 4
3: x <- 2 to 4
4: print x to 5
5: return 0
# a circle of jumps stays as one jump to itself
main: begin
print a
L: goto N
M: goto L
N: goto M
end
$ lower clean
0: start to 1
1: print a to 2
2: skip to 2
# the last test leads to one place, and so does each test before it once those after it are gone
main: begin
if a goto L
if a goto M
L: if a goto N
M: if a goto N
N: return a
end
$ lower clean
0: start to 1
1: return a
# two tests lead to each other alone: what is left is a jump to itself
main: begin
M: if a goto N
N: if ! a goto M
goto N
end
$ lower clean
0: start to 1
1: skip to 1
# a test of a loop stays, and the jumps around it go
main: begin
receive a(val)
L: goto M
M: if ! a goto N
print a
goto L
N: return a
end
$ lower
0: start to 1
1: skip to 2
2: if ! a to 5 else 3
3: print a to 4
4: skip to 1
5: return a
$ lower clean
0: start to 1
1: if ! a to 3 else 2
2: print a to 1
3: return a
# two nodes that lie on a loop are each entered from within it and from the test before it
main: begin
receive n(val)
if n goto M
L: n <- n - 1
M: if n > 0 goto L
return n
end
$ lower
0: start to 1
1: if n to 3 else 2
2: n <- n - 1 to 3
3: if n > 0 to 2 else 4
4: return n
$ lower split
0: start to 1
1: if n to 5 else 6
2: n <- n - 1 to 7
3: if n > 0 to 8 else 4
4: return n
5: skip to 3
6: skip to 2
7: skip to 3
8: skip to 2
# a loop that is entered at its first node and repeated by a test at its last
main: begin
receive a(val)
L: print i
i <- i + 1
if i < a goto L
return i
end
$ lower split: blocks
block 0 5
block 1 2 3
block 4
block 6
# equal constants at a join stay, and so does a test of what was received
main: begin
receive a(val)
x <- 1
if x = 1 goto L
x <- 2
L: if a goto M
print x
M: return x
end
$ lower fold clean
0: start to 1
1: x <- 1 to 2
2: if a to 4 else 3
3: print 1 to 4
4: return 1
# a division that both uses must come to is evaluated once, though a print stands between them
main: begin
receive a(val)
receive b(val)
x <- a / b
print x
y <- a / b
return y
end
$ lower clean split divide
0: start to 5
1: x <- h1 to 2
2: print x to 3
3: y <- h1 to 4
4: return y
5: h1 <- a / b to 1
# no division moves up before a print, which is seen even where it traps
main: begin
receive a(val)
receive b(val)
L: print i
x <- a / b
i <- i + x
if i < 9 goto L
return i
end
$ lower clean split divide
0: start to 6
1: print i to 2
2: x <- a / b to 3
3: i <- i + x to 4
4: if i < 9 to 7 else 5
5: return i
6: skip to 1
7: skip to 1
# a division leaves a loop that shows nothing, since it comes first there in any case
main: begin
receive a(val)
receive b(val)
L: x <- a / b
i <- i + x
if i < 9 goto L
return i
end
$ lower clean split divide
0: start to 7
1: x <- h1 to 2
2: i <- i + x to 3
3: if i < 9 to 6 else 4
4: return i
5: skip to 1
6: skip to 1
7: h1 <- a / b to 5
# a loop that need not end holds a division back: it is evaluated on the way out
main: begin
receive a(val)
receive b(val)
L: if a goto L
x <- a / b
y <- a / b
return y
end
$ lower clean split divide
0: start to 5
1: if a to 6 else 7
2: x <- h1 to 3
3: y <- h1 to 4
4: return y
5: skip to 1
6: skip to 1
7: h1 <- a / b to 2
# no division moves up before another one, which may trap first
main: begin
receive a(val)
receive b(val)
if a goto M
c <- 1
goto L
M: c <- a mod b
L: x <- 7 / b
y <- a mod b
return y
end
$ lower clean split divide
0: start to 1
1: if a to 3 else 2
2: c <- 1 to 7
3: c <- a mod b to 8
4: x <- 7 / b to 5
5: y <- a mod b to 6
6: return y
7: skip to 4
8: skip to 4
# before a join a division is evaluated where it was not, since nothing but silent steps stand between
main: begin
receive a(val)
receive b(val)
if a goto M
c <- 1
goto L
M: c <- a mod b
L: if c goto N
e <- 8
N: y <- a mod b
return y
end
$ lower clean split divide
0: start to 1
1: if a to 12 else 2
2: c <- 1 to 13
3: c <- h1 to 9
4: if c to 10 else 5
5: e <- 8 to 11
6: y <- h1 to 7
7: return y
8: skip to 4
9: skip to 4
10: skip to 6
11: skip to 6
12: h1 <- a mod b to 3
13: h1 <- a mod b to 8
# a sum is put before the node on the edge into a loop: Start leads to it, and it leads to where Start led
main: begin
receive a(val)
receive b(val)
L1: x <- a + b
i <- i + 1
if i < x goto L1
return i
end
$ lower split
0: start to 5
1: x <- a + b to 2
2: i <- i + 1 to 3
3: if i < x to 6 else 4
4: return i
5: skip to 1
6: skip to 1
$ lower split put
0: start to 7
1: x <- a + b to 2
2: i <- i + 1 to 3
3: if i < x to 6 else 4
4: return i
5: skip to 1
6: skip to 1
7: h1 <- a + b to 5
";
