// An image written record by record.
use std::alloc::{AllocError, Global};

// As many bytes as the image has by now; `end` closes it.
#[derive(Drop)]
pub struct Writing {
    bytes: Vec<u8>,
}

impl Writing {
    pub fn new(heap: Global) -> Result<Writing, AllocError> {
        let mut bytes = Vec::new(heap);
        bytes.extend_from_slice(&[1])?;
        Ok(Writing { bytes })
    }

    // Words to be placed from an address on.
    pub fn place(&mut self, address: u32, words: &[u32]) -> Result<(), AllocError> {
        let length = (5 + 4 * (words.len() % 16_000)) as u16;
        self.bytes.extend_from_slice(&length.to_be_bytes())?;
        self.bytes.extend_from_slice(&[1])?;
        self.bytes.extend_from_slice(&address.to_be_bytes())?;
        for word in words {
            self.bytes.extend_from_slice(&word.to_be_bytes())?;
        }
        Ok(())
    }

    pub fn map(&mut self, segment: u16, page: u32, info: u32) -> Result<(), AllocError> {
        self.bytes.extend_from_slice(&[0, 11, 2])?;
        self.bytes.extend_from_slice(&segment.to_be_bytes())?;
        self.bytes.extend_from_slice(&page.to_be_bytes())?;
        self.bytes.extend_from_slice(&info.to_be_bytes())
    }

    pub fn give(&mut self, class: u8, number: u8, value: u32) -> Result<(), AllocError> {
        self.bytes.extend_from_slice(&[0, 7, 3, class, number])?;
        self.bytes.extend_from_slice(&value.to_be_bytes())
    }

    pub fn end(&mut self) -> Result<&[u8], AllocError> {
        self.bytes.extend_from_slice(&[0, 1, 4])?;
        Ok(self.bytes.as_slice())
    }
}
