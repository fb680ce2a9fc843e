//! Manifests as other writers lay them out, made by tests/manifest_files.py, which has their values in tests/manifests.

/// `data_manifest.avro`.
pub(crate) const DATA: &[u8] =
    b"Obj\x01\x0e\x0cschema\xfc\x0d{\"type\":\"struct\",\"schema-id\":0,\"fields\":[{\"id\":1,\"name\":\"flag\",\"requir\
    ed\":false,\"type\":\"boolean\"},{\"id\":2,\"name\":\"small\",\"required\":false,\"type\":\"int\"},{\"id\":3,\"nam\
    e\":\"big\",\"required\":false,\"type\":\"long\"},{\"id\":4,\"name\":\"half\",\"required\":false,\"type\":\"float\
    \"},{\"id\":5,\"name\":\"whole\",\"required\":false,\"type\":\"double\"},{\"id\":6,\"name\":\"day\",\"required\":f\
    alse,\"type\":\"date\"},{\"id\":7,\"name\":\"clock\",\"required\":false,\"type\":\"time\"},{\"id\":8,\"name\":\"at\
    \",\"required\":false,\"type\":\"timestamp\"},{\"id\":9,\"name\":\"at_utc\",\"required\":false,\"type\":\"timestam\
    ptz\"},{\"id\":10,\"name\":\"name\",\"required\":false,\"type\":\"string\"},{\"id\":11,\"name\":\"key\",\"required\
    \":false,\"type\":\"uuid\"},{\"id\":12,\"name\":\"code\",\"required\":false,\"type\":\"fixed[5]\"},{\"id\":13,\"na\
    me\":\"blob\",\"required\":false,\"type\":\"binary\"},{\"id\":14,\"name\":\"price\",\"required\":false,\"type\":\"\
    decimal(9, 2)\"},{\"id\":15,\"name\":\"old\",\"required\":false,\"type\":\"string\"}]}\x1cpartition-spec\xf2\x1b[{\
    \"name\":\"big_bucket\",\"transform\":\"bucket[16]\",\"source-id\":3,\"field-id\":1000},{\"name\":\"name_trunc\",\
    \"transform\":\"truncate[4]\",\"source-id\":10,\"field-id\":1001},{\"name\":\"small_trunc\",\"transform\":\"trunca\
    te[10]\",\"source-id\":2,\"field-id\":1002},{\"name\":\"big_trunc\",\"transform\":\"truncate[100]\",\"source-id\":\
    3,\"field-id\":1003},{\"name\":\"price_trunc\",\"transform\":\"truncate[50]\",\"source-id\":14,\"field-id\":1004},\
    {\"name\":\"at_year\",\"transform\":\"year\",\"source-id\":8,\"field-id\":1005},{\"name\":\"at_month\",\"transform\
    \":\"month\",\"source-id\":8,\"field-id\":1006},{\"name\":\"at_day\",\"transform\":\"day\",\"source-id\":8,\"field\
    -id\":1007},{\"name\":\"at_hour\",\"transform\":\"hour\",\"source-id\":9,\"field-id\":1008},{\"name\":\"flag\",\"t\
    ransform\":\"identity\",\"source-id\":1,\"field-id\":1009},{\"name\":\"small\",\"transform\":\"identity\",\"source\
    -id\":2,\"field-id\":1010},{\"name\":\"big\",\"transform\":\"identity\",\"source-id\":3,\"field-id\":1011},{\"name\
    \":\"half\",\"transform\":\"identity\",\"source-id\":4,\"field-id\":1012},{\"name\":\"whole\",\"transform\":\"iden\
    tity\",\"source-id\":5,\"field-id\":1013},{\"name\":\"day\",\"transform\":\"identity\",\"source-id\":6,\"field-id\
    \":1014},{\"name\":\"clock\",\"transform\":\"identity\",\"source-id\":7,\"field-id\":1015},{\"name\":\"at\",\"tran\
    sform\":\"identity\",\"source-id\":8,\"field-id\":1016},{\"name\":\"at_utc\",\"transform\":\"identity\",\"source-i\
    d\":9,\"field-id\":1017},{\"name\":\"name\",\"transform\":\"identity\",\"source-id\":10,\"field-id\":1018},{\"name\
    \":\"key\",\"transform\":\"identity\",\"source-id\":11,\"field-id\":1019},{\"name\":\"code\",\"transform\":\"ident\
    ity\",\"source-id\":12,\"field-id\":1020},{\"name\":\"blob\",\"transform\":\"identity\",\"source-id\":13,\"field-i\
    d\":1021},{\"name\":\"price\",\"transform\":\"identity\",\"source-id\":14,\"field-id\":1022},{\"name\":\"old_void\
    \",\"transform\":\"void\",\"source-id\":15,\"field-id\":1023},{\"name\":\"old_void_int\",\"transform\":\"void\",\"\
    source-id\":15,\"field-id\":1024}]\"partition-spec-id\x020\x1cformat-version\x022\x0econtent\x08data\x16avro.schem\
    a\xe2Z{\"type\":\"record\",\"name\":\"manifest_entry\",\"fields\":[{\"name\":\"status\",\"type\":\"int\",\"field-i\
    d\":0},{\"name\":\"snapshot_id\",\"type\":[\"null\",\"long\"],\"default\":null,\"field-id\":1},{\"name\":\"sequenc\
    e_number\",\"type\":[\"null\",\"long\"],\"default\":null,\"field-id\":3},{\"name\":\"file_sequence_number\",\"type\
    \":[\"null\",\"long\"],\"default\":null,\"field-id\":4},{\"name\":\"data_file\",\"type\":{\"type\":\"record\",\"na\
    me\":\"r2\",\"fields\":[{\"name\":\"content\",\"type\":\"int\",\"doc\":\"Contents of the file: 0=data, 1=position \
    deletes, 2=equality deletes\",\"field-id\":134},{\"name\":\"file_path\",\"type\":\"string\",\"doc\":\"Location URI\
    \x20with FS scheme\",\"field-id\":100},{\"name\":\"file_format\",\"type\":\"string\",\"doc\":\"File format name: a\
    vro, orc, or parquet\",\"field-id\":101},{\"name\":\"partition\",\"type\":{\"type\":\"record\",\"name\":\"r102\",\
    \"fields\":[{\"name\":\"big_bucket\",\"type\":[\"null\",\"int\"],\"default\":null,\"field-id\":1000},{\"name\":\"n\
    ame_trunc\",\"type\":[\"null\",\"string\"],\"default\":null,\"field-id\":1001},{\"name\":\"small_trunc\",\"type\":\
    [\"null\",\"int\"],\"default\":null,\"field-id\":1002},{\"name\":\"big_trunc\",\"type\":[\"null\",\"long\"],\"defa\
    ult\":null,\"field-id\":1003},{\"name\":\"price_trunc\",\"type\":[\"null\",{\"type\":\"fixed\",\"name\":\"decimal_\
    9_2\",\"size\":4,\"logicalType\":\"decimal\",\"precision\":9,\"scale\":2}],\"default\":null,\"field-id\":1004},{\"\
    name\":\"at_year\",\"type\":[\"null\",\"int\"],\"default\":null,\"field-id\":1005},{\"name\":\"at_month\",\"type\"\
    :[\"null\",\"int\"],\"default\":null,\"field-id\":1006},{\"name\":\"at_day\",\"type\":[\"null\",{\"type\":\"int\",\
    \"logicalType\":\"date\"}],\"default\":null,\"field-id\":1007},{\"name\":\"at_hour\",\"type\":[\"null\",\"int\"],\
    \"default\":null,\"field-id\":1008},{\"name\":\"flag\",\"type\":[\"null\",\"boolean\"],\"default\":null,\"field-id\
    \":1009},{\"name\":\"small\",\"type\":[\"null\",\"int\"],\"default\":null,\"field-id\":1010},{\"name\":\"big\",\"t\
    ype\":[\"null\",\"long\"],\"default\":null,\"field-id\":1011},{\"name\":\"half\",\"type\":[\"null\",\"float\"],\"d\
    efault\":null,\"field-id\":1012},{\"name\":\"whole\",\"type\":[\"null\",\"double\"],\"default\":null,\"field-id\":\
    1013},{\"name\":\"day\",\"type\":[\"null\",{\"type\":\"int\",\"logicalType\":\"date\"}],\"default\":null,\"field-i\
    d\":1014},{\"name\":\"clock\",\"type\":[\"null\",{\"type\":\"long\",\"logicalType\":\"time-micros\"}],\"default\":\
    null,\"field-id\":1015},{\"name\":\"at\",\"type\":[\"null\",{\"type\":\"long\",\"logicalType\":\"timestamp-micros\
    \",\"adjust-to-utc\":false}],\"default\":null,\"field-id\":1016},{\"name\":\"at_utc\",\"type\":[\"null\",{\"type\"\
    :\"long\",\"logicalType\":\"timestamp-micros\",\"adjust-to-utc\":true}],\"default\":null,\"field-id\":1017},{\"nam\
    e\":\"name\",\"type\":[\"null\",\"string\"],\"default\":null,\"field-id\":1018},{\"name\":\"key\",\"type\":[\"null\
    \",{\"type\":\"fixed\",\"name\":\"uuid_fixed\",\"size\":16,\"logicalType\":\"uuid\"}],\"default\":null,\"field-id\
    \":1019},{\"name\":\"code\",\"type\":[\"null\",{\"type\":\"fixed\",\"name\":\"fixed_5\",\"size\":5}],\"default\":n\
    ull,\"field-id\":1020},{\"name\":\"blob\",\"type\":[\"null\",\"bytes\"],\"default\":null,\"field-id\":1021},{\"nam\
    e\":\"price\",\"type\":[\"null\",\"decimal_9_2\"],\"default\":null,\"field-id\":1022},{\"name\":\"old_void\",\"typ\
    e\":[\"null\",\"string\"],\"default\":null,\"field-id\":1023},{\"name\":\"old_void_int\",\"type\":[\"null\",\"int\
    \"],\"default\":null,\"field-id\":1024}]},\"doc\":\"Partition data tuple, schema based on the partition spec\",\"f\
    ield-id\":102},{\"name\":\"record_count\",\"type\":\"long\",\"doc\":\"Number of records in the file\",\"field-id\"\
    :103},{\"name\":\"file_size_in_bytes\",\"type\":\"long\",\"doc\":\"Total file size in bytes\",\"field-id\":104},{\
    \"name\":\"column_sizes\",\"type\":[\"null\",{\"type\":\"array\",\"items\":{\"type\":\"record\",\"name\":\"k117_v1\
    18\",\"fields\":[{\"name\":\"key\",\"type\":\"int\",\"field-id\":117},{\"name\":\"value\",\"type\":\"long\",\"fiel\
    d-id\":118}]},\"logicalType\":\"map\"}],\"doc\":\"Map of column id to total size on disk\",\"default\":null,\"fiel\
    d-id\":108},{\"name\":\"value_counts\",\"type\":[\"null\",{\"type\":\"array\",\"items\":{\"type\":\"record\",\"nam\
    e\":\"k119_v120\",\"fields\":[{\"name\":\"key\",\"type\":\"int\",\"field-id\":119},{\"name\":\"value\",\"type\":\"\
    long\",\"field-id\":120}]},\"logicalType\":\"map\"}],\"doc\":\"Map of column id to total count, including null and\
    \x20NaN\",\"default\":null,\"field-id\":109},{\"name\":\"null_value_counts\",\"type\":[\"null\",{\"type\":\"array\
    \",\"items\":{\"type\":\"record\",\"name\":\"k121_v122\",\"fields\":[{\"name\":\"key\",\"type\":\"int\",\"field-id\
    \":121},{\"name\":\"value\",\"type\":\"long\",\"field-id\":122}]},\"logicalType\":\"map\"}],\"doc\":\"Map of colum\
    n id to null value count\",\"default\":null,\"field-id\":110},{\"name\":\"nan_value_counts\",\"type\":[\"null\",{\
    \"type\":\"array\",\"items\":{\"type\":\"record\",\"name\":\"k138_v139\",\"fields\":[{\"name\":\"key\",\"type\":\"\
    int\",\"field-id\":138},{\"name\":\"value\",\"type\":\"long\",\"field-id\":139}]},\"logicalType\":\"map\"}],\"doc\
    \":\"Map of column id to number of NaN values in the column\",\"default\":null,\"field-id\":137},{\"name\":\"lower\
    _bounds\",\"type\":[\"null\",{\"type\":\"array\",\"items\":{\"type\":\"record\",\"name\":\"k126_v127\",\"fields\":\
    [{\"name\":\"key\",\"type\":\"int\",\"field-id\":126},{\"name\":\"value\",\"type\":\"bytes\",\"field-id\":127}]},\
    \"logicalType\":\"map\"}],\"doc\":\"Map of column id to lower bound\",\"default\":null,\"field-id\":125},{\"name\"\
    :\"upper_bounds\",\"type\":[\"null\",{\"type\":\"array\",\"items\":{\"type\":\"record\",\"name\":\"k129_v130\",\"f\
    ields\":[{\"name\":\"key\",\"type\":\"int\",\"field-id\":129},{\"name\":\"value\",\"type\":\"bytes\",\"field-id\":\
    130}]},\"logicalType\":\"map\"}],\"doc\":\"Map of column id to upper bound\",\"default\":null,\"field-id\":128},{\
    \"name\":\"key_metadata\",\"type\":[\"null\",\"bytes\"],\"doc\":\"Encryption key metadata blob\",\"default\":null,\
    \"field-id\":131},{\"name\":\"split_offsets\",\"type\":[\"null\",{\"type\":\"array\",\"items\":\"long\",\"element-\
    id\":133}],\"doc\":\"Splittable offsets\",\"default\":null,\"field-id\":132},{\"name\":\"equality_ids\",\"type\":[\
    \"null\",{\"type\":\"array\",\"items\":\"int\",\"element-id\":136}],\"doc\":\"Equality comparison field IDs\",\"de\
    fault\":null,\"field-id\":135},{\"name\":\"sort_order_id\",\"type\":[\"null\",\"int\"],\"doc\":\"Sort order ID\",\
    \"default\":null,\"field-id\":140},{\"name\":\"referenced_data_file\",\"type\":[\"null\",\"string\"],\"doc\":\"Ful\
    ly qualified location (URI with FS scheme) of a data file that all deletes reference\",\"default\":null,\"field-id\
    \":143}]},\"field-id\":2}]}\x14avro.codec\x08null\x00\xda\xee\xc1\x1b\xe1\xc0\x9d\xc1(\xc1 \xb2\xf6Fw}\x04\xbc\x05\
    \x02\x02\x8c\x01\x00\x00\x00J/warehouse/db/t/data/\xc3\xa9-00000.parquet\x0ePARQUET\x02\x1e\x02\x0ana\xc3\xafv\x02\
    \x13\x02\xff\xff\xff\xff\xff\xff\xff\xff\x7f\x02\x00\x00\x002\x02d\x02\xc0\x09\x02\xac\xa1\x02\x02\xb8\xa06\x02\
    \x01\x02\xff\xff\xff\xff\x0f\x02\xfe\xff\xff\xff\xff\xff\xff\xff\xff\x01\x02\x00\x00\xc0?\x02\x01\x00\x00\x00\x00\
    \x00\x00\x00\x02\xf0\xa8\x02\x02\x00\x02\x80\x80\xa0\xfa\xa0\xcc\xd7\x05\x02\x00\x02\x00\x02\x00\x01\x02\x03\x04\
    \x05\x06\x07\x08\x09\x0a\x0b\x0c\x0d\x0e\x0f\x02fixed\x02\x00\x02\x00\x00'\x0f\x00\x00\xd0\x0f\x80\x80\x80\x80@\
    \x02\x04\x02\x80\x02\x04\x80\x80\x80\x80\x80@\x00\x02\x04\x02\xd0\x0f\x04\xd0\x0f\x00\x02\x04\x02\x00\x04\x00\x00\
    \x02\x02\x08\x06\x00\x02\x04\x02\x02\x00\x04\x08\xfe\xff\xff\xff\x00\x02\x04\x02\x02\x01\x04\x00\x00\x02\x08key\
    \x00\x02\x04\x08\x80\x80\x80\x80 \x00\x00\x02\x00\x00\x02\x00\x00\x00\x00J/warehouse/db/t/data/\xc3\xa9-00001.parq\
    uet\x0ePARQUET\x00\x00\x00\x00\x00\x00\x00\x00\x00\x00\x00\x00\x00\x00\x00\x00\x00\x00\x00\x00\x00\x00\x00\x00\x00\
    \xd2\x0f\x82\x80\x80\x80@\x00\x00\x00\x00\x00\x00\x00\x00\x00\x00\x00\xda\xee\xc1\x1b\xe1\xc0\x9d\xc1(\xc1 \xb2\
    \xf6Fw}\x04\xa4\x0b\x00\x02<\x02\x06\x02\x06\x00J/warehouse/db/t/data/\xc3\xa9-00002.parquet\x0ePARQUET\x02\x00\
    \x02\x00\x02\x00\x02\xc8\x01\x02\xff\xff\xff\xce\x02\x01\x02\x01\x02\x01\x02\x01\x02\x00\x02\xfe\xff\xff\xff\x0f\
    \x02\xff\xff\xff\xff\xff\xff\xff\xff\xff\x01\x02\x00\x00\x00\x80\x02\xa0\xc8\xeb\x85\xf3\xcc\xe1\xff\x02\x01\x02\
    \xfe\xff\xba\xdd\x83\x05\x02\x01\x02\x80\x80\xa0\xfa\xa0\xcc\xd7\x05\x02\x14na\xc3\xafve \xe2\x82\xac\x02\xff\xff\
    \xff\xff\xff\xff\xff\xff\xff\xff\xff\xff\xff\xff\xff\xff\x02\x00\x00\x00\x00\x00\x02\x80\x04\x00\x01\x02\x03\x04\
    \x05\x06\x07\x08\x09\x0a\x0b\x0c\x0d\x0e\x0f\x10\x11\x12\x13\x14\x15\x16\x17\x18\x19\x1a\x1b\x1c\x1d\x1e\x1f !\"#$\
    %&'()*+,-./0123456789:;<=>?@ABCDEFGHIJKLMNOPQRSTUVWXYZ[\\]^_`abcdefghijklmnopqrstuvwxyz{|}~\x7f\x80\x81\x82\x83\
    \x84\x85\x86\x87\x88\x89\x8a\x8b\x8c\x8d\x8e\x8f\x90\x91\x92\x93\x94\x95\x96\x97\x98\x99\x9a\x9b\x9c\x9d\x9e\x9f\
    \xa0\xa1\xa2\xa3\xa4\xa5\xa6\xa7\xa8\xa9\xaa\xab\xac\xad\xae\xaf\xb0\xb1\xb2\xb3\xb4\xb5\xb6\xb7\xb8\xb9\xba\xbb\
    \xbc\xbd\xbe\xbf\xc0\xc1\xc2\xc3\xc4\xc5\xc6\xc7\xc8\xc9\xca\xcb\xcc\xcd\xce\xcf\xd0\xd1\xd2\xd3\xd4\xd5\xd6\xd7\
    \xd8\xd9\xda\xdb\xdc\xdd\xde\xdf\xe0\xe1\xe2\xe3\xe4\xe5\xe6\xe7\xe8\xe9\xea\xeb\xec\xed\xee\xef\xf0\xf1\xf2\xf3\
    \xf4\xf5\xf6\xf7\xf8\xf9\xfa\xfb\xfc\xfd\xfe\xff\x02\xff\xff\xff\xff\x00\x00\xd4\x0f\x84\x80\x80\x80@\x02\x04\x02\
    \x80\x02\x04\x80\x80\x80\x80\x80@\x00\x02\x04\x02\xd4\x0f\x04\xd4\x0f\x00\x02\x04\x02\x00\x04\x04\x00\x02\x02\x08\
    \x06\x00\x02\x04\x02\x02\x00\x04\x08\xfe\xff\xff\xff\x00\x02\x04\x02\x02\x01\x04\x00\x00\x02\x08key\x00\x02\x04\
    \x08\x80\x80\x80\x80 \x00\x00\x02\x00\x00\x00\x02\xff\xff\xff\xff\xff\xff\xff\xff\xff\x01\x02\xfe\xff\xff\xff\xff\
    \xff\xff\xff\xff\x01\x00\x00J/warehouse/db/t/data/\xc3\xa9-00003.parquet\x0ePARQUET\x02\x1e\x02\x0ana\xc3\xafv\x02\
    \x13\x02\xff\xff\xff\xff\xff\xff\xff\xff\x7f\x02\x00\x00\x002\x02d\x02\xc0\x09\x02\xac\xa1\x02\x02\xb8\xa06\x02\
    \x01\x02\xff\xff\xff\xff\x0f\x02\xfe\xff\xff\xff\xff\xff\xff\xff\xff\x01\x02\x00\x00\xc0?\x02\x01\x00\x00\x00\x00\
    \x00\x00\x00\x02\xf0\xa8\x02\x02\x00\x02\x80\x80\xa0\xfa\xa0\xcc\xd7\x05\x02\x00\x02\x00\x02\x00\x01\x02\x03\x04\
    \x05\x06\x07\x08\x09\x0a\x0b\x0c\x0d\x0e\x0f\x02fixed\x02\x00\x02\x00\x00'\x0f\x00\x00\xd6\x0f\x86\x80\x80\x80@\
    \x00\x00\x00\x00\x00\x00\x00\x00\x00\x00\x00\xda\xee\xc1\x1b\xe1\xc0\x9d\xc1(\xc1 \xb2\xf6Fw}\x02\xc0\x02\x04\x02\
    \x8c\x01\x02\x04\x02\x04\x00J/warehouse/db/t/data/\xc3\xa9-00004.parquet\x0ePARQUET\x00\x00\x00\x00\x00\x00\x00\
    \x00\x00\x00\x00\x00\x00\x00\x00\x00\x00\x00\x00\x00\x00\x00\x00\x00\x00\xd8\x0f\x88\x80\x80\x80@\x02\x04\x02\x80\
    \x02\x04\x80\x80\x80\x80\x80@\x00\x02\x04\x02\xd8\x0f\x04\xd8\x0f\x00\x02\x04\x02\x00\x04\x08\x00\x02\x02\x08\x06\
    \x00\x02\x04\x02\x02\x00\x04\x08\xfe\xff\xff\xff\x00\x02\x04\x02\x02\x01\x04\x00\x00\x02\x08key\x00\x02\x04\x08\
    \x80\x80\x80\x80 \x00\x00\x02\x00\x00\xda\xee\xc1\x1b\xe1\xc0\x9d\xc1(\xc1 \xb2\xf6Fw}";

/// `delete_manifest.avro`.
pub(crate) const DELETES: &[u8] =
    b"Obj\x01\x10\x0cschema\xfc\x0d{\"type\":\"struct\",\"schema-id\":0,\"fields\":[{\"id\":1,\"name\":\"flag\",\"requir\
    ed\":false,\"type\":\"boolean\"},{\"id\":2,\"name\":\"small\",\"required\":false,\"type\":\"int\"},{\"id\":3,\"nam\
    e\":\"big\",\"required\":false,\"type\":\"long\"},{\"id\":4,\"name\":\"half\",\"required\":false,\"type\":\"float\
    \"},{\"id\":5,\"name\":\"whole\",\"required\":false,\"type\":\"double\"},{\"id\":6,\"name\":\"day\",\"required\":f\
    alse,\"type\":\"date\"},{\"id\":7,\"name\":\"clock\",\"required\":false,\"type\":\"time\"},{\"id\":8,\"name\":\"at\
    \",\"required\":false,\"type\":\"timestamp\"},{\"id\":9,\"name\":\"at_utc\",\"required\":false,\"type\":\"timestam\
    ptz\"},{\"id\":10,\"name\":\"name\",\"required\":false,\"type\":\"string\"},{\"id\":11,\"name\":\"key\",\"required\
    \":false,\"type\":\"uuid\"},{\"id\":12,\"name\":\"code\",\"required\":false,\"type\":\"fixed[5]\"},{\"id\":13,\"na\
    me\":\"blob\",\"required\":false,\"type\":\"binary\"},{\"id\":14,\"name\":\"price\",\"required\":false,\"type\":\"\
    decimal(9, 2)\"},{\"id\":15,\"name\":\"old\",\"required\":false,\"type\":\"string\"}]}\x1cpartition-spec\x8e\x02[{\
    \"name\":\"at_day\",\"transform\":\"day\",\"source-id\":8,\"field-id\":1007},{\"name\":\"big\",\"transform\":\"ide\
    ntity\",\"source-id\":3,\"field-id\":1011}]\"partition-spec-id\x023\x1cformat-version\x022\x0econtent\x0edeletes\
    \x12schema-id\x020\x16avro.schema\x904{\"type\":\"record\",\"name\":\"manifest_entry\",\"fields\":[{\"name\":\"sna\
    pshot_id\",\"type\":[\"long\",\"null\"],\"field-id\":1},{\"name\":\"sequence_number\",\"type\":[\"null\",\"long\"]\
    ,\"field-id\":3},{\"name\":\"hints\",\"type\":[\"null\",{\"type\":\"map\",\"values\":\"long\",\"key-id\":9101,\"va\
    lue-id\":9102}],\"default\":null,\"field-id\":9100},{\"name\":\"file_sequence_number\",\"type\":[\"long\",\"null\"\
    ],\"field-id\":4},{\"name\":\"data_file\",\"type\":{\"type\":\"record\",\"name\":\"r2\",\"fields\":[{\"name\":\"ra\
    tio\",\"type\":\"double\",\"field-id\":9007},{\"name\":\"file_path\",\"type\":\"string\",\"field-id\":100},{\"name\
    \":\"file_format\",\"type\":\"string\",\"field-id\":101},{\"name\":\"partition\",\"type\":{\"type\":\"record\",\"n\
    ame\":\"r102\",\"fields\":[{\"name\":\"big\",\"type\":[\"int\",\"null\"],\"field-id\":1011},{\"name\":\"day\",\"ty\
    pe\":[\"null\",\"int\"],\"field-id\":1007}]},\"field-id\":102},{\"name\":\"record_count\",\"type\":\"long\",\"fiel\
    d-id\":103},{\"name\":\"file_size_in_bytes\",\"type\":\"long\",\"field-id\":104},{\"name\":\"hints\",\"type\":[\"n\
    ull\",{\"type\":\"map\",\"values\":\"long\",\"key-id\":9001,\"value-id\":9002}],\"default\":null,\"field-id\":9000\
    },{\"name\":\"column_sizes\",\"type\":[\"null\",{\"type\":\"array\",\"items\":{\"type\":\"record\",\"name\":\"k117\
    _v118\",\"fields\":[{\"name\":\"key\",\"type\":\"int\",\"field-id\":117},{\"name\":\"value\",\"type\":\"long\",\"f\
    ield-id\":118}]},\"logicalType\":\"map\"}],\"field-id\":108},{\"name\":\"value_counts\",\"type\":[{\"type\":\"arra\
    y\",\"items\":{\"type\":\"record\",\"name\":\"k119_v120\",\"fields\":[{\"name\":\"key\",\"type\":\"int\",\"field-i\
    d\":119},{\"name\":\"value\",\"type\":\"long\",\"field-id\":120}]},\"logicalType\":\"map\"},\"null\"],\"field-id\"\
    :109},{\"name\":\"null_value_counts\",\"type\":[\"null\",{\"type\":\"array\",\"items\":{\"type\":\"record\",\"name\
    \":\"k121_v122\",\"fields\":[{\"name\":\"key\",\"type\":\"int\",\"field-id\":121},{\"name\":\"value\",\"type\":\"l\
    ong\",\"field-id\":122}]},\"logicalType\":\"map\"}],\"field-id\":110},{\"name\":\"nan_value_counts\",\"type\":[{\"\
    type\":\"array\",\"items\":{\"type\":\"record\",\"name\":\"k138_v139\",\"fields\":[{\"name\":\"key\",\"type\":\"in\
    t\",\"field-id\":138},{\"name\":\"value\",\"type\":\"long\",\"field-id\":139}]},\"logicalType\":\"map\"},\"null\"]\
    ,\"field-id\":137},{\"name\":\"kind\",\"type\":{\"type\":\"enum\",\"name\":\"kinds\",\"symbols\":[\"ONE\",\"TWO\"]\
    },\"field-id\":9008},{\"name\":\"lower_bounds\",\"type\":[\"null\",{\"type\":\"array\",\"items\":{\"type\":\"recor\
    d\",\"name\":\"k126_v127\",\"fields\":[{\"name\":\"key\",\"type\":\"int\",\"field-id\":126},{\"name\":\"value\",\"\
    type\":\"bytes\",\"field-id\":127}]},\"logicalType\":\"map\"}],\"field-id\":125},{\"name\":\"upper_bounds\",\"type\
    \":[{\"type\":\"array\",\"items\":{\"type\":\"record\",\"name\":\"k129_v130\",\"fields\":[{\"name\":\"key\",\"type\
    \":\"int\",\"field-id\":129},{\"name\":\"value\",\"type\":\"bytes\",\"field-id\":130}]},\"logicalType\":\"map\"},\
    \"null\"],\"field-id\":128},{\"name\":\"key_metadata\",\"type\":[\"null\",\"bytes\"],\"field-id\":131},{\"name\":\
    \"split_offsets\",\"type\":[{\"type\":\"array\",\"items\":\"long\",\"element-id\":133},\"null\"],\"field-id\":132}\
    ,{\"name\":\"equality_ids\",\"type\":[\"null\",{\"type\":\"array\",\"items\":\"int\",\"element-id\":136}],\"field-\
    id\":135},{\"name\":\"sort_order_id\",\"type\":[\"int\",\"null\"],\"field-id\":140},{\"name\":\"referenced_data_fi\
    le\",\"type\":[\"null\",\"string\"],\"field-id\":143},{\"name\":\"content\",\"type\":\"int\",\"field-id\":134},{\"\
    name\":\"extra\",\"type\":[{\"type\":\"record\",\"name\":\"r9003\",\"fields\":[{\"name\":\"deep\",\"type\":{\"type\
    \":\"record\",\"name\":\"r9004\",\"fields\":[{\"name\":\"text\",\"type\":\"string\",\"field-id\":9005},{\"name\":\
    \"bits\",\"type\":[\"null\",\"bytes\"],\"field-id\":9006}]},\"field-id\":9004}]},\"null\"],\"field-id\":9003}]},\"\
    field-id\":2},{\"name\":\"status\",\"type\":\"int\",\"field-id\":0}]}\x14avro.codec\x08null\x00\x99\xdb\x91\x0emm\
    \xcf\xf9\x06v\xf6\xeb\x07w\xf5\xda\x04\xc0\x05\x00\x8c\x01\x00\x02\x03\x0c\x02a\x00\x02b\x00\x01\x18\x02c\x80\x80\
    \x80\x80\x80\x80\x80\x80\x80\x01\x00\x02\x00\x00\x00\x00\x00\x00\x00\x00J/warehouse/db/t/data/\xc3\xa9-00000.parqu\
    et\x08avro\x00\x09\x02\xf0\xa8\x02\xd0\x0f\x80\x80\x80\x80@\x02\x03\x0c\x02a\x00\x02b\x00\x01\x18\x02c\x80\x80\x80\
    \x80\x80\x80\x80\x80\x80\x01\x00\x02\x03\x14\x02\x80\x02\x04\x80\x80\x80\x80\x80@\x00\x00\x03\x0c\x02\xd0\x0f\x04\
    \xd0\x0f\x00\x02\x03\x08\x02\x00\x04\x00\x00\x00\x01\x04\x08\x06\x00\x02\x02\x03\x12\x02\x02\x00\x04\x08\xfe\xff\
    \xff\xff\x00\x00\x03\x0a\x02\x02\x01\x04\x00\x00\x02\x08key\x00\x00\x03\x0c\x08\x80\x80\x80\x80 \x00\x00\x00\x00\
    \x02J/warehouse/db/t/data/\xc3\xa9-00000.parquet\x02\x00\x0a\xc3\xbcber\x02\x04\x01\x02\x02\x00\x8e\x01\x02\x0a\
    \x00\x02\x00\x00\x00\x00\x00\x00\xd0?J/warehouse/db/t/data/\xc3\xa9-00003.parquet\x06Orc\x02\x02\xf2\xa8\x02\xd6\
    \x0f\x86\x80\x80\x80@\x00\x00\x02\x00\x02\x02\x00\x02\x00\x02\x02\x03\x04\x04\x06\x01\x02\x14\x00\x02\x00\x04\x00\
    \x0a\xc3\xbcber\x02\x04\x01\x02\x02\x99\xdb\x91\x0emm\xcf\xf9\x06v\xf6\xeb\x07w\xf5\xda\x02\xa8\x03\x00\x90\x01\
    \x02\x0a\x02\x03\x0c\x02a\x04\x02b\x03\x01\x18\x02c\x80\x80\x80\x80\x80\x80\x80\x80\x80\x01\x00\x02\x00\x00\x00\
    \x00\x00\x00\xe0?J/warehouse/db/t/data/\xc3\xa9-00000.parquet\x08avro\x00\x0d\x02\xf4\xa8\x02\xd0\x0f\x80\x80\x80\
    \x80@\x02\x03\x0c\x02a\x04\x02b\x03\x01\x18\x02c\x80\x80\x80\x80\x80\x80\x80\x80\x80\x01\x00\x02\x03\x14\x02\x80\
    \x02\x04\x80\x80\x80\x80\x80@\x00\x00\x03\x0c\x02\xd0\x0f\x04\xd0\x0f\x00\x02\x03\x08\x02\x00\x04\x00\x00\x00\x01\
    \x04\x08\x06\x00\x02\x02\x03\x12\x02\x02\x00\x04\x08\xfe\xff\xff\xff\x00\x00\x03\x0a\x02\x02\x01\x04\x00\x00\x02\
    \x08key\x00\x00\x03\x0c\x08\x80\x80\x80\x80 \x00\x00\x00\x00\x00\x02\x00\x0a\xc3\xbcber\x02\x04\x01\x02\x00\x99\
    \xdb\x91\x0emm\xcf\xf9\x06v\xf6\xeb\x07w\xf5\xda";

/// `null_numbers_manifest.avro`.
pub(crate) const NULL_NUMBERS: &[u8] =
    b"Obj\x01\x10\x0cschema\xfc\x0d{\"type\":\"struct\",\"schema-id\":0,\"fields\":[{\"id\":1,\"name\":\"flag\",\"requir\
    ed\":false,\"type\":\"boolean\"},{\"id\":2,\"name\":\"small\",\"required\":false,\"type\":\"int\"},{\"id\":3,\"nam\
    e\":\"big\",\"required\":false,\"type\":\"long\"},{\"id\":4,\"name\":\"half\",\"required\":false,\"type\":\"float\
    \"},{\"id\":5,\"name\":\"whole\",\"required\":false,\"type\":\"double\"},{\"id\":6,\"name\":\"day\",\"required\":f\
    alse,\"type\":\"date\"},{\"id\":7,\"name\":\"clock\",\"required\":false,\"type\":\"time\"},{\"id\":8,\"name\":\"at\
    \",\"required\":false,\"type\":\"timestamp\"},{\"id\":9,\"name\":\"at_utc\",\"required\":false,\"type\":\"timestam\
    ptz\"},{\"id\":10,\"name\":\"name\",\"required\":false,\"type\":\"string\"},{\"id\":11,\"name\":\"key\",\"required\
    \":false,\"type\":\"uuid\"},{\"id\":12,\"name\":\"code\",\"required\":false,\"type\":\"fixed[5]\"},{\"id\":13,\"na\
    me\":\"blob\",\"required\":false,\"type\":\"binary\"},{\"id\":14,\"name\":\"price\",\"required\":false,\"type\":\"\
    decimal(9, 2)\"},{\"id\":15,\"name\":\"old\",\"required\":false,\"type\":\"string\"}]}\x1cpartition-spec\x04[]\"pa\
    rtition-spec-id\x020\x1cformat-version\x022\x0econtent\x08data\x12schema-id\x020\x16avro.schema\x808{\"type\":\"re\
    cord\",\"name\":\"manifest_entry\",\"fields\":[{\"name\":\"status\",\"type\":\"int\",\"field-id\":0},{\"name\":\"s\
    napshot_id\",\"type\":[\"null\",\"long\"],\"default\":null,\"field-id\":1},{\"name\":\"sequence_number\",\"type\":\
    [\"null\",\"long\"],\"default\":null,\"field-id\":3},{\"name\":\"file_sequence_number\",\"type\":[\"null\",\"long\
    \"],\"default\":null,\"field-id\":4},{\"name\":\"data_file\",\"type\":{\"type\":\"record\",\"name\":\"r2\",\"field\
    s\":[{\"name\":\"content\",\"type\":\"int\",\"doc\":\"Contents of the file: 0=data, 1=position deletes, 2=equality\
    \x20deletes\",\"field-id\":134},{\"name\":\"file_path\",\"type\":\"string\",\"doc\":\"Location URI with FS scheme\
    \",\"field-id\":100},{\"name\":\"file_format\",\"type\":\"string\",\"doc\":\"File format name: avro, orc, or parqu\
    et\",\"field-id\":101},{\"name\":\"partition\",\"type\":{\"type\":\"record\",\"name\":\"r102\",\"fields\":[]},\"do\
    c\":\"Partition data tuple, schema based on the partition spec\",\"field-id\":102},{\"name\":\"record_count\",\"ty\
    pe\":\"long\",\"doc\":\"Number of records in the file\",\"field-id\":103},{\"name\":\"file_size_in_bytes\",\"type\
    \":\"long\",\"doc\":\"Total file size in bytes\",\"field-id\":104},{\"name\":\"column_sizes\",\"type\":[\"null\",{\
    \"type\":\"array\",\"items\":{\"type\":\"record\",\"name\":\"k117_v118\",\"fields\":[{\"name\":\"key\",\"type\":\"\
    int\",\"field-id\":117},{\"name\":\"value\",\"type\":\"long\",\"field-id\":118}]},\"logicalType\":\"map\"}],\"doc\
    \":\"Map of column id to total size on disk\",\"default\":null,\"field-id\":108},{\"name\":\"value_counts\",\"type\
    \":[\"null\",{\"type\":\"array\",\"items\":{\"type\":\"record\",\"name\":\"k119_v120\",\"fields\":[{\"name\":\"key\
    \",\"type\":\"int\",\"field-id\":119},{\"name\":\"value\",\"type\":\"long\",\"field-id\":120}]},\"logicalType\":\"\
    map\"}],\"doc\":\"Map of column id to total count, including null and NaN\",\"default\":null,\"field-id\":109},{\"\
    name\":\"null_value_counts\",\"type\":[\"null\",{\"type\":\"array\",\"items\":{\"type\":\"record\",\"name\":\"k121\
    _v122\",\"fields\":[{\"name\":\"key\",\"type\":\"int\",\"field-id\":121},{\"name\":\"value\",\"type\":\"long\",\"f\
    ield-id\":122}]},\"logicalType\":\"map\"}],\"doc\":\"Map of column id to null value count\",\"default\":null,\"fie\
    ld-id\":110},{\"name\":\"nan_value_counts\",\"type\":[\"null\",{\"type\":\"array\",\"items\":{\"type\":\"record\",\
    \"name\":\"k138_v139\",\"fields\":[{\"name\":\"key\",\"type\":\"int\",\"field-id\":138},{\"name\":\"value\",\"type\
    \":\"long\",\"field-id\":139}]},\"logicalType\":\"map\"}],\"doc\":\"Map of column id to number of NaN values in th\
    e column\",\"default\":null,\"field-id\":137},{\"name\":\"lower_bounds\",\"type\":[\"null\",{\"type\":\"array\",\"\
    items\":{\"type\":\"record\",\"name\":\"k126_v127\",\"fields\":[{\"name\":\"key\",\"type\":\"int\",\"field-id\":12\
    6},{\"name\":\"value\",\"type\":\"bytes\",\"field-id\":127}]},\"logicalType\":\"map\"}],\"doc\":\"Map of column id\
    \x20to lower bound\",\"default\":null,\"field-id\":125},{\"name\":\"upper_bounds\",\"type\":[\"null\",{\"type\":\"\
    array\",\"items\":{\"type\":\"record\",\"name\":\"k129_v130\",\"fields\":[{\"name\":\"key\",\"type\":\"int\",\"fie\
    ld-id\":129},{\"name\":\"value\",\"type\":\"bytes\",\"field-id\":130}]},\"logicalType\":\"map\"}],\"doc\":\"Map of\
    \x20column id to upper bound\",\"default\":null,\"field-id\":128},{\"name\":\"key_metadata\",\"type\":[\"null\",\"\
    bytes\"],\"doc\":\"Encryption key metadata blob\",\"default\":null,\"field-id\":131},{\"name\":\"split_offsets\",\
    \"type\":[\"null\",{\"type\":\"array\",\"items\":\"long\",\"element-id\":133}],\"doc\":\"Splittable offsets\",\"de\
    fault\":null,\"field-id\":132},{\"name\":\"equality_ids\",\"type\":[\"null\",{\"type\":\"array\",\"items\":\"int\"\
    ,\"element-id\":136}],\"doc\":\"Equality comparison field IDs\",\"default\":null,\"field-id\":135},{\"name\":\"sor\
    t_order_id\",\"type\":[\"null\",\"int\"],\"doc\":\"Sort order ID\",\"default\":null,\"field-id\":140},{\"name\":\"\
    referenced_data_file\",\"type\":[\"null\",\"string\"],\"doc\":\"Fully qualified location (URI with FS scheme) of a\
    \x20data file that all deletes reference\",\"default\":null,\"field-id\":143}]},\"field-id\":2}]}\x14avro.codec\
    \x08null\x00NS!\xccB\xfeB\x82\xad\x03\xaa\xa9\xba)\x14C\x06\xa4\x05\x02\x00\x00\x00\x00J/warehouse/db/t/data/\xc3\
    \xa9-00000.parquet\x0ePARQUET\xd0\x0f\x80\x80\x80\x80@\x02\x04\x02\x80\x02\x04\x80\x80\x80\x80\x80@\x00\x02\x04\
    \x02\xd0\x0f\x04\xd0\x0f\x00\x02\x04\x02\x00\x04\x00\x00\x02\x02\x08\x06\x00\x02\x04\x02\x02\x00\x04\x08\xfe\xff\
    \xff\xff\x00\x02\x04\x02\x02\x01\x04\x00\x00\x02\x08key\x00\x02\x04\x08\x80\x80\x80\x80 \x00\x00\x02\x00\x00\x00\
    \x02<\x02\x06\x02\x06\x00J/warehouse/db/t/data/\xc3\xa9-00001.parquet\x0ePARQUET\xd2\x0f\x82\x80\x80\x80@\x00\x00\
    \x00\x00\x00\x00\x00\x00\x00\x00\x00\x04\x02\x8c\x01\x02\x04\x02\x04\x00J/warehouse/db/t/data/\xc3\xa9-00002.parqu\
    et\x0ePARQUET\xd4\x0f\x84\x80\x80\x80@\x02\x04\x02\x80\x02\x04\x80\x80\x80\x80\x80@\x00\x02\x04\x02\xd4\x0f\x04\
    \xd4\x0f\x00\x02\x04\x02\x00\x04\x04\x00\x02\x02\x08\x06\x00\x02\x04\x02\x02\x00\x04\x08\xfe\xff\xff\xff\x00\x02\
    \x04\x02\x02\x01\x04\x00\x00\x02\x08key\x00\x02\x04\x08\x80\x80\x80\x80 \x00\x00\x02\x00\x00NS!\xccB\xfeB\x82\xad\
    \x03\xaa\xa9\xba)\x14C";

/// The partitions and the lists of its files.
pub(crate) const DATA_FILES: [&str; 5] = [
    "Fields(Items { items: [Int(15), Str(Text { inner: \"naïv\" }), Int(-10), Long(-4611686018427387904), Fix(Bytes { inner: [0, 0, 0, 50] }), Int(50), Int(608), Int(18518), Int(444444), Bool(true), Int(-2147483648), Long(9223372036854775807), Float4([0, 0, 192, 63]), Float8([1, 0, 0, 0, 0, 0, 0, 0]), Int(19000), Long(0), Long(1600000000000000), Long(0), Str(Text { inner: \"\" }), Fix(Bytes { inner: [0, 1, 2, 3, 4, 5, 6, 7, 8, 9, 10, 11, 12, 13, 14, 15] }), Fix(Bytes { inner: [102, 105, 120, 101, 100] }), Blob(Bytes { inner: [] }), Fix(Bytes { inner: [0, 0, 39, 15] }), Null, Null] }) Some(Items { items: [(1, 128), (2, 1099511627776)] }) Some(Items { items: [(1, 1000), (2, 1000)] }) Some(Items { items: [(1, 0), (2, 0)] }) Some(Items { items: [(4, 3)] }) Some(Items { items: [(1, Bytes { inner: [0] }), (2, Bytes { inner: [254, 255, 255, 255] })] }) Some(Items { items: [(1, Bytes { inner: [1] }), (2, Bytes { inner: [] })] }) Some(Items { items: [4, 4294967296] })",
    "Fields(Items { items: [Null, Null, Null, Null, Null, Null, Null, Null, Null, Null, Null, Null, Null, Null, Null, Null, Null, Null, Null, Null, Null, Null, Null, Null, Null] }) None None None None None None None",
    "Fields(Items { items: [Int(0), Str(Text { inner: \"\" }), Int(0), Long(100), Fix(Bytes { inner: [255, 255, 255, 206] }), Int(-1), Int(-1), Int(-1), Int(-1), Bool(false), Int(2147483647), Long(-9223372036854775808), Float4([0, 0, 0, 128]), Float8([160, 200, 235, 133, 243, 204, 225, 255]), Int(-1), Long(86399999999), Long(-1), Long(1600000000000000), Str(Text { inner: \"naïve €\" }), Fix(Bytes { inner: [255, 255, 255, 255, 255, 255, 255, 255, 255, 255, 255, 255, 255, 255, 255, 255] }), Fix(Bytes { inner: [0, 0, 0, 0, 0] }), Blob(Bytes { inner: [0, 1, 2, 3, 4, 5, 6, 7, 8, 9, 10, 11, 12, 13, 14, 15, 16, 17, 18, 19, 20, 21, 22, 23, 24, 25, 26, 27, 28, 29, 30, 31, 32, 33, 34, 35, 36, 37, 38, 39, 40, 41, 42, 43, 44, 45, 46, 47, 48, 49, 50, 51, 52, 53, 54, 55, 56, 57, 58, 59, 60, 61, 62, 63, 64, 65, 66, 67, 68, 69, 70, 71, 72, 73, 74, 75, 76, 77, 78, 79, 80, 81, 82, 83, 84, 85, 86, 87, 88, 89, 90, 91, 92, 93, 94, 95, 96, 97, 98, 99, 100, 101, 102, 103, 104, 105, 106, 107, 108, 109, 110, 111, 112, 113, 114, 115, 116, 117, 118, 119, 120, 121, 122, 123, 124, 125, 126, 127, 128, 129, 130, 131, 132, 133, 134, 135, 136, 137, 138, 139, 140, 141, 142, 143, 144, 145, 146, 147, 148, 149, 150, 151, 152, 153, 154, 155, 156, 157, 158, 159, 160, 161, 162, 163, 164, 165, 166, 167, 168, 169, 170, 171, 172, 173, 174, 175, 176, 177, 178, 179, 180, 181, 182, 183, 184, 185, 186, 187, 188, 189, 190, 191, 192, 193, 194, 195, 196, 197, 198, 199, 200, 201, 202, 203, 204, 205, 206, 207, 208, 209, 210, 211, 212, 213, 214, 215, 216, 217, 218, 219, 220, 221, 222, 223, 224, 225, 226, 227, 228, 229, 230, 231, 232, 233, 234, 235, 236, 237, 238, 239, 240, 241, 242, 243, 244, 245, 246, 247, 248, 249, 250, 251, 252, 253, 254, 255] }), Fix(Bytes { inner: [255, 255, 255, 255] }), Null, Null] }) Some(Items { items: [(1, 128), (2, 1099511627776)] }) Some(Items { items: [(1, 1002), (2, 1002)] }) Some(Items { items: [(1, 0), (2, 2)] }) Some(Items { items: [(4, 3)] }) Some(Items { items: [(1, Bytes { inner: [0] }), (2, Bytes { inner: [254, 255, 255, 255] })] }) Some(Items { items: [(1, Bytes { inner: [1] }), (2, Bytes { inner: [] })] }) Some(Items { items: [4, 4294967296] })",
    "Fields(Items { items: [Int(15), Str(Text { inner: \"naïv\" }), Int(-10), Long(-4611686018427387904), Fix(Bytes { inner: [0, 0, 0, 50] }), Int(50), Int(608), Int(18518), Int(444444), Bool(true), Int(-2147483648), Long(9223372036854775807), Float4([0, 0, 192, 63]), Float8([1, 0, 0, 0, 0, 0, 0, 0]), Int(19000), Long(0), Long(1600000000000000), Long(0), Str(Text { inner: \"\" }), Fix(Bytes { inner: [0, 1, 2, 3, 4, 5, 6, 7, 8, 9, 10, 11, 12, 13, 14, 15] }), Fix(Bytes { inner: [102, 105, 120, 101, 100] }), Blob(Bytes { inner: [] }), Fix(Bytes { inner: [0, 0, 39, 15] }), Null, Null] }) None None None None None None None",
    "Fields(Items { items: [Null, Null, Null, Null, Null, Null, Null, Null, Null, Null, Null, Null, Null, Null, Null, Null, Null, Null, Null, Null, Null, Null, Null, Null, Null] }) Some(Items { items: [(1, 128), (2, 1099511627776)] }) Some(Items { items: [(1, 1004), (2, 1004)] }) Some(Items { items: [(1, 0), (2, 4)] }) Some(Items { items: [(4, 3)] }) Some(Items { items: [(1, Bytes { inner: [0] }), (2, Bytes { inner: [254, 255, 255, 255] })] }) Some(Items { items: [(1, Bytes { inner: [1] }), (2, Bytes { inner: [] })] }) Some(Items { items: [4, 4294967296] })",
];
