// Files in memory, and the place of their one reader.
ghost use Rattle.std.specs.Prelude.{◌≡◌, ◌≤◌, [], OnOk, OnErr, bytes_eq, drop, is_some, length};
ghost use Rattle.std.specs.Prelude.{position, string_bytes, unwrap_or};
ghost use Rattle.byte_flow.specs.FileTable.{files_in, rest_at, rest_in};
ghost use Rattle.byte_flow.specs.Flow.{no_files, with_file};

use std::alloc::{AllocError, Global};

/// A path with its bytes.
#[derive(Drop)]
pub struct StoredFile {
    pub path: String,
    pub bytes: Vec<u8>,
}

/// The open file, by its index, and how many of its bytes were read.
#[derive(Clone, Copy)]
pub struct Place {
    pub file: usize,
    pub offset: usize,
}

/// Stored files, the newest first, so that it hides older ones with its path.
#[derive(Drop)]
pub struct FileTable {
    pub files: Vec<StoredFile>,
    pub place: Option<Place>,
}

impl FileTable {
    /// No files, and none open.
    pub fn new(alloc: Global) -> Self
        ensures files { files_in result ≡ no_files }
        ensures rest { rest_in result ≡ [] }
    {
        FileTable {
            files: Vec::new(alloc),
            place: None,
        }
    }

    /// Gives a path these bytes, and closes the open file.
    pub fn add(&mut self, path: &str, bytes: &[u8]) -> Result<(), AllocError>
        ensures files { OnOk result (files_in self.new
            ≡ with_file path.now bytes.now (files_in self.old)) }
        ensures closed { OnOk result (rest_in self.new ≡ []) }
        ensures files_stay { OnErr result (files_in self.new ≡ files_in self.old) }
        ensures rest_stays { OnErr result (rest_in self.new ≡ rest_in self.old) }
    {
        let alloc = *self.files.allocator();
        let path = String::from_str(alloc, path)?;
        let bytes = Vec::from_slice(alloc, bytes)?;
        self.files.insert(0, StoredFile { path, bytes })?;
        self.place = None;
        Ok(())
    }

    /// Opens the file at the path, and returns whether it is there. If it is not, no file is open.
    pub fn open(&mut self, path: &str) -> bool
        ensures answer { result ≡ is_some (files_in self.old path.now) }
        ensures files { files_in self.new ≡ files_in self.old }
        ensures rest { rest_in self.new ≡ unwrap_or (files_in self.old path.now) [] }
    {
        self.place = self.place_of(path);
        self.place.is_some()
    }

    /// The start of the file at the path, if there is one.
    fn place_of(&self, path: &str) -> Option<Place>
        ensures answer { is_some result ≡ is_some (files_in self.now path.now) }
        ensures rest { rest_at self.now.files.items result
            ≡ unwrap_or (files_in self.now path.now) [] }
    {
        match self.index_of(path) {
            Some(file) => Some(Place { file, offset: 0 }),
            None => None,
        }
    }

    /// The index of the newest file with the path.
    fn index_of(&self, path: &str) -> Option<usize>
        ensures { result
            ≡ position (λ file. bytes_eq (string_bytes file.path) path.now) self.now.files.items }
    {
        self.files
            .iter()
            .position(|file| file.path.as_str() == path)
    }

    /// Closes the open file.
    pub fn close(&mut self)
        ensures files { files_in self.new ≡ files_in self.old }
        ensures rest { rest_in self.new ≡ [] }
    {
        self.place = None;
    }

    /// The unread rest of the open file.
    pub fn unread(&self) -> &[u8]
        ensures { result.now ≡ rest_in self.now }
    {
        let Some(place) = self.place else {
            return &[];
        };
        let Some(file) = self.files.get(place.file) else {
            return &[];
        };
        let Some(rest) = file.bytes.get(place.offset..) else {
            return &[];
        };
        rest
    }

    /// Counts more bytes of the open file as read.
    pub fn advance(&mut self, count: usize)
        requires { count ≤ length (rest_in self.old) }
        ensures files { files_in self.new ≡ files_in self.old }
        ensures rest { rest_in self.new ≡ drop count (rest_in self.old) }
    {
        if let Some(place) = &mut self.place {
            place.offset = place.offset.saturating_add(count);
        }
    }
}
