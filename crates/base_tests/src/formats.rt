//! Blobs, frames, commands and replies, indexes, manifests, books and orders, against bytes made elsewhere.

mod blobs;
mod book;
mod commands;
mod dynamic;
mod fixed;
mod fixtures;
mod frames;
mod inputs;
mod manifests;
mod order;
