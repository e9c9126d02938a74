//! What connections do.

/// What a connection does from its admission until it is gone. Each leaves something else in what
/// serves it: a head, its fields, a query; content; bytes that weren't read, and bytes that weren't
/// sent; the end of the input; a cause. On the ninth so much is written that a step needs memory
/// while bytes wait that were written; the two behind it have bodies, of which one is bad.
pub const COURSES: [&str; 11] = [
    "admit
in GET /a HTTP/1.1~Host: a~~
seen
run
write hello
return
end
took 78
told",
    "admit
in GET /b/long/path?and=query HTTP/1.1~Host: somebody~Cookie: secret~Connection: close~~
seen
run
write a long content that another may not see
write , and more of it
return
told
took 100
took 1000
told",
    "admit
in GET /a HTTP/1.0~~GET /b/not/read?by=anybody HTTP/1.1~Host: ano
seen
run
write last
return
in ther~~
out
took 1000",
    "admit
in GET /c?q HTTP/1.1~Host: a~~GET /c HTTP/1.1~Host: b~~GET /a HT
told
in TP/1.1~Host: c~~
seen
took 100
run
return
took 1000
end
told",
    "admit
in GET /a?q HTTP/9.9~Host: a~~
told
run
took 1000",
    "admit
in GET /unfinished?query HTTP/1.1~Host: some
run
write too early
return
end
told",
    "admit
end
told",
    "admit
in GET /b HTTP/1.1~Host: a~~
run
end
write answered behind the end
seen
return
took 80
told
took 80",
    "admit
in GET /a HTTP/1.1~Host: a~~
run
fill 8000
return
took 10000
in GET /a HTTP/1.1~Host: a~~
run
fill 8000
return
took 10000
in GET /a HTTP/1.1~Host: a~~
run
fill 8000
return
took 10000
in GET /a HTTP/1.1~Host: a~~
run
fill 8000
return
took 10000
in GET /a HTTP/1.1~Host: a~~
run
fill 8000
return
took 100
end
took 10000",
    "admit
in POST /a HTTP/1.1~Host: a~Content-Length: 10~~hello
run
read 3
seen
read 10
read 4
in world
read 0
read 65536
read 1
write thanks
return
end
told
took 100",
    "admit
in POST /b HTTP/1.1~Host: a~Transfer-Encoding: chunked~~5~abc
run
read 5
write not to be sent
in de~X
read 2
write nor this
told
return
told
took 1000",
];
