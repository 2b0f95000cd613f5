// Two streams in memory, in place of standard output and standard error.
use std::alloc::Global;
use std::cell::RefCell;
use std::fmt::Display;
use std::io;

/// What was printed, and on which of the two streams.
#[derive(Drop)]
pub(crate) struct Screen {
    alloc: Global,
    output: RefCell<String>,
    errors: RefCell<String>,
}

impl Screen {
    pub(crate) fn new(alloc: Global) -> Screen {
        Screen {
            alloc,
            output: RefCell::new(String::new(alloc)),
            errors: RefCell::new(String::new(alloc)),
        }
    }

    /// The texts on the two streams.
    pub(crate) fn into_texts(self) -> (String, String) {
        let Screen {
            alloc: _,
            output,
            errors,
        } = self;
        (output.into_inner(), errors.into_inner())
    }
}

fn add<D: Display + Drop>(
    alloc: Global,
    stream: &RefCell<String>,
    value: D,
    end: &str,
) -> io::Result<()> {
    let text = format!(in alloc; "{value}{end}")?;
    match stream.try_borrow_mut() {
        Ok(mut stream) => Ok(stream.push_str(text.as_str())?),
        Err(_) => Err(io::Error::from(io::ErrorKind::Other)),
    }
}

impl Print for Screen {
    fn print<D: Display + Drop>(&self, value: D) -> io::Result<()> {
        add(self.alloc, &self.output, value, "")
    }

    fn println<D: Display + Drop>(&self, value: D) -> io::Result<()> {
        add(self.alloc, &self.output, value, "\n")
    }

    fn write_all(&self, _bytes: &[u8]) -> io::Result<()> {
        Err(io::Error::from(io::ErrorKind::Other))
    }
}

impl Eprint for Screen {
    fn eprint<D: Display + Drop>(&self, value: D) -> io::Result<()> {
        add(self.alloc, &self.errors, value, "")
    }

    fn eprintln<D: Display + Drop>(&self, value: D) -> io::Result<()> {
        add(self.alloc, &self.errors, value, "\n")
    }
}
