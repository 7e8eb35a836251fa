// What a firmware links: the calls of the crate knobharbor under their C names. A table crosses as a pointer to as many elements as its type has, a list as a pointer and a length of 64 bits; an answer of more than one word goes into a lent place. So the C conventions of every target pass them as they stand. include/knobharbor.h declares the public ones. tools/exports writes this crate.
#![tactic(auto)]

mod added;
mod asked;
mod changed;
mod dragged;
mod held;
mod held_added;
mod held_asked;
mod lines;
mod service;
mod showing;
mod written;
