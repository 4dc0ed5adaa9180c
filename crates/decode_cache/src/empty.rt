// The cache that holds nothing: with it every instruction is read and decoded anew.
ghost use Rattle.std.specs.Prelude.{false};
ghost use Rattle.decode_cache.specs.Held.{nothing};

use super::cache::{DecodeCache, Decoded};

#[derive(Drop)]
pub struct EmptyCache;

impl DecodeCache for EmptyCache {
    ghost sound = { λ _. Unit {0} };

    ghost held = { λ _. nothing };

    ghost retains = { false };

    fn recall(&self, _address: u64) -> Option<Decoded> {
        None
    }

    fn keep(&mut self, _address: u64, _decoded: Decoded) {}

    fn forget(&mut self, _address: u64) {}

    fn clear(&mut self) {}
}
