use std::alloc::AllocGlobal;
use std::net::{Net, TcpListener, TcpStream};
use std::random::RandomSource;
use std::sync::Wait;
use std::thread::Threads;
use std::time::Clock;

/// What the threads of the program are given: memory, threads of their own that wait for each other, the clock, random
/// numbers, and standard error.
pub trait Host: AllocGlobal + RandomSource + Threads + Wait + Clock + Eprint + Sync {}

impl<R: AllocGlobal + RandomSource + Threads + Wait + Clock + Eprint + Sync> Host for R {}

/// The same, and connections of its own.
pub trait NetHost: Host + Net<Listener = TcpListener, Stream = TcpStream> {}

impl<R: Host + Net<Listener = TcpListener, Stream = TcpStream>> NetHost for R {}
