// A drive without a file.
use std::alloc::{Alloc, Global};
use tune_disk::{DeedLog, DeviceFault, Drive, MemoryDisk};

/// No path leads to a file, and none can be made.
#[derive(Drop)]
pub(crate) struct NoFiles {
    alloc: Global,
    log: DeedLog<MemoryDisk>,
}

impl NoFiles {
    pub(crate) fn new(alloc: Global) -> NoFiles {
        NoFiles {
            alloc,
            log: DeedLog::new(),
        }
    }
}

impl Alloc for NoFiles {
    type A = Global;

    fn alloc(&self) -> Global {
        self.alloc
    }
}

impl Drive for NoFiles {
    ghost use Rattle.std.specs.Prelude.{⊤};
    ghost use Rattle.tune_disk.specs.DeedLog.{deeds_of};

    type Disk = MemoryDisk;

    ghost deeds = { λ drive. deeds_of drive.log };

    ghost is_new = { λ _. ⊤ };

    fn open(&mut self, path: &String) -> Result<MemoryDisk, DeviceFault> {
        let answer = Err(DeviceFault);
        self.log.open(path, &answer);
        answer
    }

    fn create(&mut self, path: &String) -> Result<MemoryDisk, DeviceFault> {
        let answer = Err(DeviceFault);
        self.log.create(path, &answer);
        answer
    }

    fn close(&mut self, path: &String, disk: MemoryDisk) {
        self.log.close(path, &disk);
    }
}
