//! The pictures that stand in docs/pictures are those that are drawn.
use draw_core::draw::drawn;
use draw_core::status::Status;
use draw_pictures::part::Part;
use sha2::{Digest, Sha256};
use std::test::Fail;

/// A workload, what `step` traces of it, and what `sha256sum` tells of their picture in docs/pictures.
struct Picture {
    workload: &'static str,
    trace: &'static str,
    sum: &'static str,
}

const AGAIN: Picture = Picture {
    workload: "stm 1\nwords 8\ncallers 2\nrecords 8\nring 8\nreads 16\nwrites 16\nclock 0\nalg OrecLazy\n\
               structs off\ntx 0\nwrite 0 5\nend\ntx 1\nwrite 1 6\nend\nschedule\ngo 0 2\ngo 1 3\ngo 0 2\ndone\n",
    trace: "0 begin OrecLazy\n0 write 5\n1 begin OrecLazy\n1 write 6\n1 commit committed 1\n0 commit again 0 0 1\n\
            0 commit committed 2\nfinish\n",
    sum: "ff94f72f55ab994964d6512ab240cc52115fe6e80b455266427b456173261cd9",
};

const CONFLICT: Picture = Picture {
    workload: "stm 1\nwords 8\ncallers 2\nrecords 8\nring 8\nreads 16\nwrites 16\nclock 0\nalg OrecLazy\n\
               structs off\ntx 0\nread 0\nread 1\nwrite 2 9\nend\ntx 1\nwrite 0 5\nwrite 1 6\nend\nschedule\n\
               go 0 2\ngo 1 4\ngo 0 6\ndone\n",
    trace: "0 begin OrecLazy\n0 read 0\n1 begin OrecLazy\n1 write 5\n1 write 6\n1 commit committed 1\n\
            0 read conflict record 0 2 0\n0 begin OrecLazy\n0 read 5\n0 read 6\n0 write 9\n0 commit committed 2\n\
            finish\n",
    sum: "9388dc09dc5664431bbf3861facbb530964996e2643f3b44c2f16479ee16da48",
};

const EXTENSION: Picture = Picture {
    workload: "stm 1\nwords 8\ncallers 2\nrecords 8\nring 8\nreads 16\nwrites 16\nclock 0\nalg OrecLazy\n\
               structs off\ntx 0\nread 0\nread 1\nwrite 2 9\nend\ntx 1\nwrite 1 6\nend\nschedule\ngo 0 2\ngo 1 3\n\
               go 0 3\ndone\n",
    trace: "0 begin OrecLazy\n0 read 0\n1 begin OrecLazy\n1 write 6\n1 commit committed 1\n0 read 6\n0 write 9\n\
            0 commit committed 2\nfinish\n",
    sum: "2d45d847b0dfdb447d7a44f87d6f451c146ba2d1137597a010fc99ef2961b084",
};

const PROMOTIONS: Picture = Picture {
    workload: "stm 1\nwords 8\ncallers 2\nrecords 8\nring 8\nreads 16\nwrites 16\nclock 0\nalg OrecLazy\n\
               structs off\ntx 0\nread 0\nirrev\nwrite 1 5\nemit 1\nend\ntx 1\nread 1\nirrev\nwrite 2 3\nend\n\
               schedule\ngo 0 2\ngo 1 2\ngo 0 1\ngo 1 1\ngo 0 4\ngo 1 5\ndone\n",
    trace: "0 begin OrecLazy\n0 read 0\n1 begin OrecLazy\n1 read 0\n0 irrev busy 1 1\n1 irrev taken 258\n\
            0 irrev granted\n0 write 5\n0 emit 5\n0 commit committed 1\n1 begin OrecLazy\n1 read 5\n\
            1 irrev granted\n1 write 3\n1 commit committed 2\nfinish\n",
    sum: "ff474eec114bb62d26e01fb53f31a8735cb4ab4f78f3a534067cedfa7c7a1630",
};

const SWITCH: Picture = Picture {
    workload: "stm 1\nwords 8\ncallers 3\nrecords 8\nring 8\nreads 16\nwrites 16\nclock 0\nalg OrecLazy\n\
               structs off\ntx 0\nread 0\nwrite 0 5\nend\nswitch 1 TML\ntx 1\nadd 0 1\nend\ntx 2\nread 0\nend\n\
               schedule\ngo 0 2\ngo 1 2\ngo 2 1\ngo 0 2\ngo 1 2\ngo 2 2\ngo 1 3\ngo 2 2\ndone\n",
    trace: "0 begin OrecLazy\n0 read 0\n1 close closed\n1 look busy 0 1\n2 begin closed 514\n0 write 5\n\
            0 commit committed 1\n1 look quiet\n1 install TML\n2 begin TML\n2 read 5\n1 begin TML\n1 add 6\n\
            1 commit committed 4\n2 commit readonly 2\n2 idle\nfinish\n",
    sum: "e3267f2f703438d06883fcbbd75338274b342c3ad75f8ed7c14600e306054d3f",
};

#[test]
fn stored_pictures_are_drawn(rt: HostRuntime) -> Result<(), Fail> {
    let alloc = rt.alloc();
    for picture in &[AGAIN, CONFLICT, EXTENSION, PROMOTIONS, SWITCH] {
        let mut text = picture.workload.to_string(alloc)?;
        text.push_str(picture.trace)?;
        text.push_str("report 1\nend\n")?;
        let whole = Part {
            lines: None,
            callers: None,
        };
        let saying = drawn(alloc, text.as_bytes(), whole)?;
        assert_eq!(rt; saying.status, Status::Ok);
        let sum = hex::encode(alloc, Sha256::digest(saying.text.as_slice()))?;
        assert_eq!(rt; (picture.trace, sum.as_str()), (picture.trace, picture.sum));
    }
    Ok(())
}
