//! A tour of the library. Each piece of code in docs/library.md is a function of this crate.
#![tactic(auto)]

mod cells;
mod lists;
mod maps;
mod publishing;
mod sharing;
mod walking;

use imm_base::{Val, ValEq};
use std::alloc::Global;
use std::io;
use std::sync::Wait;
use std::thread::Threads;

fn show_lists(rt: &impl Print, alloc: Global) -> io::Result<()> {
    println!(rt; "counts: {:?}", lists::counts(alloc))?;
    println!(rt; "editions: {:?}", publishing::first_of_both(alloc))?;
    match lists::first_ports(alloc) {
        Ok(ports) => {
            println!(rt; "place 7: {:?}", lists::port_at(&ports, 7))?;
            let mut ports = ports;
            println!(rt; "walk: {:?}", walking::first_port_twice(alloc, &mut ports))
        }
        Err(fault) => println!(rt; "ports: {fault:?}"),
    }
}

fn show_maps<R: Print + Threads + Wait>(rt: &R, alloc: Global) -> io::Result<()> {
    println!(rt; "pools: {:?}", maps::pools(alloc))?;
    println!(rt; "frozen: {:?}", maps::frozen_pool(alloc))?;
    println!(rt; "requests: {:?}", cells::requests(rt, alloc, Val::Int(80)))?;
    let none = maps::Routes::new(ValEq::Ordinal);
    match maps::get_or_add(alloc, &none, Val::Int(80), Val::Int(1)) {
        Ok((routes, _)) => {
            let served = sharing::are_served(rt, &routes, Val::Int(80), Val::Int(443));
            println!(rt; "served: {served:?}")
        }
        Err(fault) => println!(rt; "routes: {fault:?}"),
    }
}

fn main(rt: HostRuntime) -> io::Result<()> {
    let alloc = rt.alloc();
    show_lists(&rt, alloc)?;
    show_maps(&rt, alloc)
}
